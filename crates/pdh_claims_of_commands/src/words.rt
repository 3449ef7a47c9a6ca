//! What callers may rely on of the words of the command line.

ghost use Rattle.std.specs.Prelude.{◌≡◌, [], ◌∷◌, map, codes, None, Some};
ghost use Rattle.std.specs.String.{string_bytes};
ghost use Rattle.pdh_answers.specs.declared.file.Bits.TheVariants.{Bent};
ghost use Rattle.pdh_chain.specs.declared.chain.Chain.TheVariants.{E12, M23};
ghost use Rattle.pdh_clock.specs.declared.bias.Bias.TheVariants.{Fast};
ghost use Rattle.pdh_ds1.specs.declared.form.Frame1.TheVariants.{Extended};
ghost use Rattle.pdh_words.specs.declared.commands.Command.TheVariants.{ClockMake, Demux, Disturb, Drill, Ds1Pack, Ds1Unpack, Duplex, E1Unpack, Mux};

use pdh_words::{Command, command_for};

/// `demux e12 bent` reads the disturbed line.
pub fn bent_reads_the_line(words: &[String]) -> Option<Command>
    requires { map string_bytes words.now ≡ codes "demux" ∷ codes "e12" ∷ codes "bent" ∷ [] }
    ensures { result ≡ Some (Demux E12 Bent) }
{
    command_for(words)
}

/// Only a line with C-bit parity sends a code.
pub fn code_for_every_chain(words: &[String]) -> Option<Command>
    requires { map string_bytes words.now ≡ codes "mux" ∷ codes "m13" ∷ codes "feac" ∷ codes "5" ∷ [] }
    ensures { result ≡ None }
{
    command_for(words)
}

/// A code of seven bits is refused.
pub fn code_of_seven_bits(words: &[String]) -> Option<Command>
    requires { map string_bytes words.now ≡ codes "mux" ∷ codes "c13" ∷ codes "feac" ∷ codes "64" ∷ [] }
    ensures { result ≡ None }
{
    command_for(words)
}

/// `duplex` links two terminals.
pub fn duplex_taken_for_drill(words: &[String]) -> Option<Command>
    requires { map string_bytes words.now ≡ codes "duplex" ∷ codes "e12" ∷ codes "7" ∷ codes "5" ∷ [] }
    ensures { result ≡ Some (Duplex E12 7 5) }
{
    command_for(words)
}

/// `fast` asks for fast clocks.
pub fn fast_taken_for_slow(words: &[String]) -> Option<Command>
    requires { map string_bytes words.now ≡ codes "clock" ∷ codes "make" ∷ codes "e12" ∷ codes "5" ∷ codes "fast" ∷ [] }
    ensures { result ≡ Some (ClockMake E12 5 Fast) }
{
    command_for(words)
}

/// The first number of `drill` is that of the patterns, and the second that of the frames.
pub fn seed_and_frames_change_places(words: &[String]) -> Option<Command>
    requires { map string_bytes words.now ≡ codes "drill" ∷ codes "e12" ∷ codes "7" ∷ codes "5" ∷ [] }
    ensures { result ≡ Some (Drill E12 7 5) }
{
    command_for(words)
}

/// A line of more than one multiplexer isn't smoothed.
pub fn smooth_of_every_chain(words: &[String]) -> Option<Command>
    requires { map string_bytes words.now ≡ codes "smooth" ∷ codes "e13" ∷ [] }
    ensures { result ≡ None }
{
    command_for(words)
}

/// `disturb` disturbs a line.
pub fn takes_disturb_for_mux(words: &[String]) -> Option<Command>
    requires { map string_bytes words.now ≡ codes "disturb" ∷ codes "e12" ∷ [] }
    ensures { result ≡ Some (Disturb E12) }
{
    command_for(words)
}

/// `ds1unpack` takes a line of superframes apart.
pub fn takes_ds1unpack_for_ds1pack(words: &[String]) -> Option<Command>
    requires { map string_bytes words.now ≡ codes "ds1unpack" ∷ codes "esf" ∷ [] }
    ensures { result ≡ Some (Ds1Unpack Extended) }
{
    command_for(words)
}

/// `e1unpack` takes a line of multiframes apart.
pub fn takes_e1unpack_for_e1pack(words: &[String]) -> Option<Command>
    requires { map string_bytes words.now ≡ codes "e1unpack" ∷ [] }
    ensures { result ≡ Some E1Unpack }
{
    command_for(words)
}

/// `esf` asks for extended superframes.
pub fn takes_esf_for_sf(words: &[String]) -> Option<Command>
    requires { map string_bytes words.now ≡ codes "ds1pack" ∷ codes "esf" ∷ [] }
    ensures { result ≡ Some (Ds1Pack Extended) }
{
    command_for(words)
}

/// Each chain has its own name.
pub fn takes_one_chain_for_another(words: &[String]) -> Option<Command>
    requires { map string_bytes words.now ≡ codes "mux" ∷ codes "m23" ∷ [] }
    ensures { result ≡ Some (Mux M23 None) }
{
    command_for(words)
}
