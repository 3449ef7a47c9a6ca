//! A part of a recording in an order of bits, and what is found in it.

ghost use Rattle.std.specs.Prelude.{◌≡◌, IfOk};
ghost use Rattle.pdh_looking.specs.Judging.{line_of, judged_as, tops_in, wanted_parity as wanted_parity_of, has_its_c_bits as has_its_c_bits_in};
ghost use Rattle.pdh_looking.specs.Levels.{levels_in, fits as fits_in};

use crate::levels::{LevelFound, each_stands, name_levels, sizes};
use crate::top::Top;
use crate::tops::Tops;
use pdh_candidates::Word;
use pdh_delivered::count_c_bits;
use pdh_judging::Judged;
use pdh_packed::Packed;
use pdh_readings::{BitOrder, read};
use pdh_standing::{Tally, find_lower};
use std::alloc::{AllocError, Global};

/// A part of a recording in an order of bits, and what is judged of it.
#[derive(Drop)]
pub struct Reading {
    /// Its bits.
    pub line: Packed,
    // what is judged of them by each frame at a top
    tops: Tops,
    ghost tops_are: { tops ≡ tops_in line.bits },
}

/// So many bits of bytes from a bit on, in an order, or as many as there are; or it finds no memory.
pub(crate) fn cut(
    alloc: Global,
    bytes: &[u8],
    from: usize,
    bits: usize,
    order: BitOrder,
) -> Result<Packed, AllocError>
    ensures { IfOk result (λ line. line.bits ≡ line_of bytes.now from bits order) }
{
    let all = read(alloc, bytes, order)?;
    let begin = from.min(all.len());
    let count = bits.min(all.len() - begin);
    let mut line = Packed::open(alloc, count)?;
    line.append_from(&all, begin, count);
    Ok(line)
}

// Whether a chain has C-bit parity, where its top is a DS3.
fn wanted_parity(word: Word) -> Option<bool>
    ensures { result ≡ wanted_parity_of word }
{
    match word {
        Word::E14 => None,
        Word::E24 => None,
        Word::E34 => None,
        Word::E13 => None,
        Word::E23 => None,
        Word::C13 => Some(true),
        Word::M13 => Some(false),
        Word::C13Top => Some(true),
        Word::M23 => Some(false),
        Word::E12 => None,
        Word::M12 => None,
        Word::E1 => None,
        Word::Ds1Esf => None,
        Word::Ds1Sf => None,
    }
}

// Whether a line has C-bit parity where this chain has it, and none where it has none; or it finds no memory.
fn has_its_c_bits(alloc: Global, word: Word, line: &Packed) -> Result<bool, AllocError>
    ensures { IfOk result (λ has. has ≡ has_its_c_bits_in word line.now.bits) }
{
    let Some(wanted) = wanted_parity(word) else {
        return Ok(true);
    };
    Ok(count_c_bits(alloc, line)?.have_parity() == wanted)
}

impl Reading {
    /// So many bits of bytes from a bit on, in an order, or as many as there are; or it finds no memory.
    pub(crate) fn open(
        alloc: Global,
        bytes: &[u8],
        from: usize,
        bits: usize,
        order: BitOrder,
    ) -> Result<Reading, AllocError>
        ensures { IfOk result (λ reading. reading.line.bits ≡ line_of bytes.now from bits order) }
    {
        let line = cut(alloc, bytes, from, bits, order)?;
        let tops = Tops::judge(alloc, &line)?;
        Ok(Reading { line, tops })
    }

    /// What is judged of it by a frame at a top.
    pub(crate) fn judged(&self, top: Top) -> Judged
        ensures { result ≡ judged_as top self.now.line.bits }
    {
        self.tops.of(top)
    }

    /// What is found of each level of a chain or a stream; or it finds no memory.
    pub(crate) fn levels(&self, alloc: Global, word: Word) -> Result<Vec<LevelFound>, AllocError>
        ensures { IfOk result (λ levels. levels.items ≡ levels_in word self.now.line.bits) }
    {
        let judged = self.judged(Top::of(word));
        let top = Tally {
            stand: 1,
            judged: judged.frames,
            right: judged.right,
        };
        let lower = find_lower(alloc, word, &self.line)?;
        name_levels(alloc, sizes(word), &[top, lower.first, lower.second])
    }

    /// Whether it may be a chain or a stream: its top stands, its C bits are those of it, and some node of each lower level
    /// stands; or it finds no memory.
    pub(crate) fn fits(&self, alloc: Global, word: Word) -> Result<bool, AllocError>
        ensures { IfOk result (λ answer. answer ≡ fits_in word self.now.line.bits) }
    {
        let top = Top::of(word);
        if !self.judged(top).at_top(top.len(), self.line.len() as u64) {
            return Ok(false);
        }
        if !has_its_c_bits(alloc, word, &self.line)? {
            return Ok(false);
        }
        Ok(each_stands(&self.levels(alloc, word)?))
    }
}
