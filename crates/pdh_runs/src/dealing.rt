//! The payload of a frame dealt out to its tributaries, word by word.

ghost use Rattle.std.specs.Prelude.{◌≡◌, ◌≤◌, ◌+◌, length, All};
ghost use Rattle.pdh_interleaving.specs.Interleaving.{dealt};
ghost use Rattle.pdh_runs.specs.Columns.{payload_bits};
ghost use Rattle.pdh_runs.specs.WordTables.{AreWords};

use crate::words::{WordAt, read_words};
use pdh_interleaving::{deal_four, deal_seven};
use pdh_packed::Packed;
use pdh_shape::Shape;

/// Deals the payload of a frame of four tributaries out to them. Each word has sixteen bits of each.
pub fn deal_by_four<S: Shape>(words: &[WordAt], frame: &Packed, tributaries: &mut [Packed])
    requires words { AreWords S.shape words.now }
    requires whole { length frame.now.bits ≡ S.LEN }
    requires four { length tributaries.old ≡ 4 }
    requires known { S.TRIBS ≡ 4 }
    requires room { All (λ t. length t.bits + (S.LOW + 1) ≤ t.capacity) tributaries.old }
    ensures { tributaries.new ≡ dealt (S.LOW + 1) (payload_bits S.shape frame.now.bits) tributaries.old }
{
    let each = S::LOW as usize + 1;
    let mut done = 0;
    while done < each {
        let count = (each - done).min(64);
        let mut read = [0; 4];
        read_words(words, done / 16, (count + 15) / 16, frame, &mut read);
        deal_four(read, count as u32, tributaries);
        done += count;
    }
}

/// Deals the payload of a frame of seven tributaries out to them. Each word has eight bits of each.
pub fn deal_by_seven<S: Shape>(words: &[WordAt], frame: &Packed, tributaries: &mut [Packed])
    requires words { AreWords S.shape words.now }
    requires whole { length frame.now.bits ≡ S.LEN }
    requires seven { length tributaries.old ≡ 7 }
    requires known { S.TRIBS ≡ 7 }
    requires room { All (λ t. length t.bits + (S.LOW + 1) ≤ t.capacity) tributaries.old }
    ensures { tributaries.new ≡ dealt (S.LOW + 1) (payload_bits S.shape frame.now.bits) tributaries.old }
{
    let each = S::LOW as usize + 1;
    let mut done = 0;
    while done < each {
        let count = (each - done).min(64);
        let mut read = [0; 8];
        read_words(words, done / 8, (count + 7) / 8, frame, &mut read);
        deal_seven(read, count as u32, tributaries);
        done += count;
    }
}
