//! What callers may rely on of the frames E2, E3 and E4.

ghost use Rattle.std.specs.Prelude.{◌≡◌, ◌<◌, ◌≤◌, ◌-◌, true, false, [], ◌∷◌};

use pdh_eframes::{E2, E2Plan, E4, InSets, SetFrame};
use pdh_shape::{Mark, Marks, Role, Service, Shape};

/// The first service bit of a frame in sets is the remote alarm.
pub fn alarm_inverted<P: InSets>(say: &Service, odd: bool) -> bool
    ensures { result ≡ say.now.alarm }
{
    SetFrame::<P>::service(0, say, odd)
}

/// The second set of E2 begins with a control copy of each tributary: that of the fourth is slot 215.
#[tactic(auto, unfolding(pdh_eframes::specs::Sets::set_role))]
pub fn control_slot_moved() -> Role
    ensures { result ≡ Role.Control 3 0 }
{
    E2::role(215)
}

/// The national bits of E4 end with slot 15.
#[tactic(auto, unfolding(pdh_eframes::specs::Sets::set_role))]
pub fn e4_national_bits_as_information() -> Role
    ensures { result ≡ Role.Service 1 }
{
    E4::role(15)
}

/// The justifiable slots of E2 stand in its last set, behind the control slots: that of the first tributary is slot 640.
#[tactic(auto, unfolding(pdh_eframes::specs::Sets::set_role))]
pub fn justifiable_slot_in_the_first_set() -> Role
    ensures { result ≡ Role.Just 0 }
{
    E2::role(640)
}

/// Three frames with a wrong signal, behind one with a right signal, complete no loss of alignment.
#[tactic(auto, unfolding(pdh_eframes::specs::Sets::four_wrong))]
pub fn loses_after_three_frames<P: InSets>(a: &Marks, b: &Marks, c: &Marks, d: &Marks) -> bool
    requires { a.now.framing ≡ 0 }
    ensures { result ≡ false }
{
    SetFrame::<P>::loses(a, b, c, d)
}

/// A frame of E2 carries 205 bits of a tributary at least.
pub fn low_one_too_small() -> u32
    ensures { result ≡ 205 }
{
    E2::LOW
}

/// The ten slots of the alignment signal of E2 are numbered from 0.
#[tactic(auto, unfolding(pdh_eframes::specs::Sets::set_mark))]
pub fn marks_numbered_from_one(slot: u32) -> Mark
    requires { slot < 10 }
    ensures { result ≡ Mark.Framing slot }
{
    E2::mark(slot)
}

/// Neighbouring slots carry neighbouring tributaries: slot 13 of E2 is one of the second.
#[tactic(auto, unfolding(pdh_eframes::specs::Sets::set_role))]
pub fn one_tributary_in_each_set() -> Role
    ensures { result ≡ Role.Info 1 }
{
    E2::role(13)
}

/// Slots behind the alignment signal of E2 have no mark.
#[tactic(auto, unfolding(pdh_eframes::specs::Sets::set_mark))]
pub fn service_slots_marked(slot: u32) -> Mark
    requires behind { 10 ≤ slot }
    requires within { slot < 848 }
    ensures { result ≡ Mark.Other }
{
    E2::mark(slot)
}

/// The alignment signal of E2 is 1111010000.
pub fn signal_bit_turned() -> &'static [bool]
    ensures { result.now ≡ true ∷ true ∷ true ∷ true ∷ false ∷ true ∷ false ∷ false ∷ false ∷ false ∷ [] }
{
    E2Plan::signal()
}
