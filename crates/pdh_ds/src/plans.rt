//! The plans of DS2, of DS3 in the M23 application, and of DS3 with C-bit parity (ANSI T1.107).

ghost use Rattle.std.specs.Prelude.{◌≡◌, ◌<◌, not};
ghost use Rattle.std.specs.List.{slice_index_or};
ghost use Rattle.pdh_shape.specs.declared.role.Role.TheVariants.{Service as ServiceSlot};
ghost use Rattle.pdh_ds.specs.Plans.{ds2_firsts, ds3_firsts, ds3c_c_bit};

use crate::{BlockPlan, InBlocks, LossRule};
use pdh_shape::{Duty, Role, Service};

/// The numbers of the DS2 frame.
pub const DS2_PLAN: BlockPlan = BlockPlan {
    len: 1176,
    subframe: 294,
    blocks: 6,
    block: 49,
    tribs: 4,
    copies: 3,
    low: 287,
    loss: LossRule {
        framing: 8,
        window: 4,
        wrong: 2,
    },
};

/// The plan of the DS2 frame of ANSI T1.107, of the M12 multiplexer.
#[derive(Drop)]
pub struct Ds2Plan;

impl InBlocks for Ds2Plan {
    ghost use Rattle.pdh_ds.specs.Plans.{ds2_plan, ds2_overhead, ds2_inverted, ds2_duty, ds2_service};
    ghost use Rattle.pdh_ds.specs.laws.Ds2Laws.{ds2_is_plan, ds2_keeps_laws};

    ghost PLAN = { ds2_plan };

    const PLAN: BlockPlan = DS2_PLAN;

    ghost overhead = { ds2_overhead };

    fn overhead(subframe: u8, block: u8) -> Role {
        match block {
            0 => ds2_first(subframe),
            1 => Role::Control(subframe, 0),
            2 => Role::Align(false),
            3 => Role::Control(subframe, 1),
            4 => Role::Control(subframe, 2),
            _ => Role::Align(true),
        }
    }

    ghost inverted = { ds2_inverted };

    fn inverted(trib: u8) -> bool {
        trib % 2 == 1
    }

    ghost duty = { ds2_duty };

    fn duty(number: u8) -> Duty {
        match number {
            0 => Duty::Alarm,
            _ => Duty::Other,
        }
    }

    ghost service = { ds2_service };

    fn service(number: u8, say: &Service, _odd: bool) -> bool {
        match number {
            0 => x_bit(say),
            _ => true,
        }
    }

    ghost is_plan = { ds2_is_plan };

    ghost lawful = { ds2_keeps_laws };
}

/// The first overhead slot of a DS2 subframe: M1 to M3, and X.
fn ds2_first(subframe: u8) -> Role
    ensures { result ≡ slice_index_or ds2_firsts subframe (ServiceSlot 0) }
{
    match subframe {
        0 => Role::Align(false),
        1 | 2 => Role::Align(true),
        _ => Role::Service(0),
    }
}

/// The numbers of the DS3 frame in the M23 application.
pub const DS3_PLAN: BlockPlan = BlockPlan {
    len: 4760,
    subframe: 680,
    blocks: 8,
    block: 85,
    tribs: 7,
    copies: 3,
    low: 671,
    loss: LossRule {
        framing: 28,
        window: 16,
        wrong: 3,
    },
};

/// The plan of the DS3 frame of ANSI T1.107, in the M23 application.
#[derive(Drop)]
pub struct Ds3Plan;

impl InBlocks for Ds3Plan {
    ghost use Rattle.std.specs.Prelude.{false};
    ghost use Rattle.pdh_ds.specs.Plans.{ds3_plan, ds3_overhead, ds3_duty, ds3_service};
    ghost use Rattle.pdh_ds.specs.laws.Ds3Laws.{ds3_is_plan, ds3_keeps_laws};

    ghost PLAN = { ds3_plan };

    const PLAN: BlockPlan = DS3_PLAN;

    ghost overhead = { ds3_overhead };

    fn overhead(subframe: u8, block: u8) -> Role {
        match block {
            0 => ds3_first(subframe),
            1 => Role::Align(true),
            2 => Role::Control(subframe, 0),
            3 => Role::Align(false),
            4 => Role::Control(subframe, 1),
            5 => Role::Align(false),
            6 => Role::Control(subframe, 2),
            _ => Role::Align(true),
        }
    }

    ghost inverted = { λ j. false };

    fn inverted(_trib: u8) -> bool {
        false
    }

    ghost duty = { ds3_duty };

    fn duty(number: u8) -> Duty {
        match number {
            0 => Duty::Alarm,
            1 => Duty::Parity,
            _ => Duty::Other,
        }
    }

    ghost service = { ds3_service };

    fn service(number: u8, say: &Service, odd: bool) -> bool {
        match number {
            0 => x_bit(say),
            1 => odd,
            _ => true,
        }
    }

    ghost is_plan = { ds3_is_plan };

    ghost lawful = { ds3_keeps_laws };
}

/// The numbers of the DS3 frame with C-bit parity.
pub const DS3C_PLAN: BlockPlan = BlockPlan {
    copies: 0,
    ..DS3_PLAN
};

/// The plan of the DS3 frame of ANSI T1.107 with C-bit parity: no bit is justified, each justifiable slot carries nothing, and
/// the C bits are service bits.
#[derive(Drop)]
pub struct Ds3cPlan;

impl InBlocks for Ds3cPlan {
    ghost use Rattle.std.specs.Prelude.{false};
    ghost use Rattle.pdh_ds.specs.Plans.{ds3c_plan, ds3c_overhead, ds3c_duty, ds3c_service};
    ghost use Rattle.pdh_ds.specs.laws.Ds3cLaws.{ds3c_is_plan, ds3c_keeps_laws};

    ghost PLAN = { ds3c_plan };

    const PLAN: BlockPlan = DS3C_PLAN;

    ghost overhead = { ds3c_overhead };

    fn overhead(subframe: u8, block: u8) -> Role {
        match block {
            0 => ds3_first(subframe),
            2 => c_bit(subframe, 0),
            4 => c_bit(subframe, 1),
            6 => c_bit(subframe, 2),
            3 | 5 => Role::Align(false),
            _ => Role::Align(true),
        }
    }

    ghost inverted = { λ j. false };

    fn inverted(_trib: u8) -> bool {
        false
    }

    ghost duty = { ds3c_duty };

    fn duty(number: u8) -> Duty {
        match number {
            0 => Duty::Alarm,
            1 => Duty::Parity,
            3 => Duty::Feac,
            4 => Duty::PathParity,
            5 => Duty::Febe,
            _ => Duty::Other,
        }
    }

    ghost service = { ds3c_service };

    fn service(number: u8, say: &Service, odd: bool) -> bool {
        match number {
            0 => x_bit(say),
            1 | 4 => odd,
            3 => say.feac,
            5 => say.febe,
            6 => say.link[0],
            7 => say.link[1],
            8 => say.link[2],
            _ => true,
        }
    }

    ghost is_plan = { ds3c_is_plan };

    ghost lawful = { ds3c_keeps_laws };
}

/// A C bit of a subframe with C-bit parity, by its number from 0: identification, a reserved bit and the far end alarm and
/// control channel; path parity; the far end block error; the data link; and bits that are 1.
fn c_bit(subframe: u8, number: u8) -> Role
    requires { number < 3 }
    ensures { result ≡ ds3c_c_bit subframe number }
{
    let bit = match (subframe, number) {
        (0, 2) => 3,
        (2, _) => 4,
        (3, _) => 5,
        (4, _) => 6 + number,
        _ => 2,
    };
    Role::Service(bit)
}

/// The first overhead slot of a DS3 subframe: X twice, P twice, and M1 to M3.
fn ds3_first(subframe: u8) -> Role
    ensures { result ≡ slice_index_or ds3_firsts subframe (ServiceSlot 0) }
{
    match subframe {
        0 | 1 => Role::Service(0),
        2 | 3 => Role::Service(1),
        4 => Role::Align(false),
        5 => Role::Align(true),
        6 => Role::Align(false),
        _ => Role::Service(0),
    }
}

/// The X bit: 1 without alarm.
fn x_bit(say: &Service) -> bool
    ensures { result ≡ not say.now.alarm }
{
    !say.alarm
}
