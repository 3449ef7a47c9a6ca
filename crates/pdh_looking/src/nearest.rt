//! The frames at tops of which most are right in a recording that is none of them.

ghost use Rattle.std.specs.Prelude.{◌≡◌, ◌≤◌, length, map, fold, IfOk, OnOk};
ghost use Rattle.std.specs.List.{insert};

use crate::Level;
use crate::part::Part;
use crate::top::{Top, all_tops};
use pdh_judging::Judged;
use pdh_readings::BitOrder;
use std::alloc::{AllocError, Global};

/// How near a recording is to one with this level at its top.
#[derive(Clone, Copy, Debug, PartialEq, Eq)]
pub struct Nearest {
    /// The level.
    pub level: Level,
    /// The order of bits.
    pub order: BitOrder,
    /// What is judged of the recording then.
    pub judged: Judged,
}

// How many are told at most.
const MOST: usize = 3;

impl Nearest {
    ghost use Rattle.pdh_looking.specs.Nearest.{put_among, ranked};

    // Its place among others: behind those with as many right frames or more.
    fn place(self, others: &[Nearest]) -> usize
        ensures within { result ≤ length others.now }
        ensures place { insert others.now result self ≡ put_among self others.now }
    {
        for (index, other) in others.iter().enumerate() {
            if other.judged.right < self.judged.right {
                return index;
            }
        }
        others.len()
    }

    // Puts it into a list of others, unless none of its frames is right.
    fn rank(self, list: &mut Vec<Nearest>) -> Result<(), AllocError>
        ensures { OnOk result (list.new.items ≡ ranked list.old.items self) }
    {
        if self.judged.right == 0 {
            return Ok(());
        }
        let place = self.place(list);
        list.insert(place, self)?;
        Ok(())
    }
}

impl Part {
    ghost use Rattle.pdh_looking.specs.Looking.{lines_in};
    ghost use Rattle.pdh_looking.specs.Nearest.{near, ranked, nearest_by};

    // Puts a frame at a top into a list of them, in each of these orders.
    fn rank_orders(
        &self,
        list: &mut Vec<Nearest>,
        top: Top,
        orders: &[BitOrder],
    ) -> Result<(), AllocError>
        ensures { OnOk result (list.new.items ≡ fold ranked list.old.items (map (near (lines_in self.now) top) orders.now)) }
    {
        for order in orders {
            let nearest = Nearest {
                level: top.level(),
                order: *order,
                judged: self.read_in(*order).judged(top),
            };
            nearest.rank(list)?;
        }
        Ok(())
    }

    /// The frames at tops of which most are right, at most three; those with as many in the order in which they are tried; none
    /// of which no frame is right; or it finds no memory.
    pub(crate) fn nearest(
        &self,
        alloc: Global,
        orders: &[BitOrder],
    ) -> Result<Vec<Nearest>, AllocError>
        ensures { IfOk result (λ list. list.items ≡ nearest_by (lines_in self.now) orders.now) }
    {
        let mut list = Vec::new(alloc);
        let tops = all_tops();
        for top in tops.iter() {
            self.rank_orders(&mut list, *top, orders)?;
        }
        list.truncate(MOST);
        Ok(list)
    }
}
