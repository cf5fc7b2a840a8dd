//! A crate with the modules that its calls hand on, walk after walk.

use crate::calls::{Again, Expands, Opened, opened_files};
use crate::chosen::numbers;
use crate::disk::Disk;
use crate::externs::externs_of;
use crate::load::{Ended, OtherWords, sources_of};
use crate::replaced::Replaced;
use crate::walked::{Walked, crate_from};
use crate::whole::Whole;
use std::collections::BTreeMap;

// How many times a crate is walked through at most for what calls hand on.
const MOST_ROUNDS: usize = 8;

// The crate once more after a walk, where what is in these calls counts.
fn walked_again(
    rt: &HostRuntime,
    disk: &Disk<'_>,
    whole: &Whole,
    opened: &Opened,
) -> Result<Walked, Ended> {
    let before = &whole.walked.modules;
    let numbers = numbers(rt.alloc(), before)?;
    let again = Again {
        disk,
        before,
        numbers,
        opened,
        replaced: &whole.replaced,
    };
    crate_from(rt, &again, whole.root.as_str(), whole.last, None)
}

// Enters the modules that calls hand on too.
fn enter_calls(
    rt: &HostRuntime,
    disk: &Disk<'_>,
    whole: &mut Whole,
    expands: &impl Expands,
) -> Result<(), Ended> {
    let mut known = BTreeMap::new(rt.alloc());
    for _ in 0..MOST_ROUNDS {
        let (opened, may_hand_on) = opened_files(rt, disk.options, whole, expands)?;
        whole.may_hand_on = may_hand_on;
        if opened == known {
            break;
        }
        whole.walked = walked_again(rt, disk, whole, &opened)?;
        known = opened;
    }
    Ok(())
}

/// Walks through the crate once more, where files have other texts. What was read of the others
/// counts again.
pub(crate) fn walk_replaced(
    rt: &HostRuntime,
    disk: &Disk<'_>,
    whole: &mut Whole,
    expands: &impl Expands,
) -> Result<(), Ended> {
    let none = BTreeMap::new(rt.alloc());
    whole.walked = walked_again(rt, disk, whole, &none)?;
    enter_calls(rt, disk, whole, expands)
}

/// The crate with this root, and what these words give of others.
///
/// Modules that calls hand on are entered too: after a walk, files with such calls are expanded,
/// and the crate is walked through once more with what these calls hand on, until no more is found,
/// at most eight times.
pub fn whole_from(
    rt: &HostRuntime,
    words: OtherWords<'_>,
    disk: &Disk<'_>,
    root: &str,
    expands: &impl Expands,
) -> Result<Whole, Ended> {
    let sources = sources_of(rt, words)?;
    let last = sources.files.len().min(1_000_000) as u32;
    let (externs, last) = externs_of(rt, disk, words.externs, last)?;
    let mut whole = Whole {
        sources,
        externs,
        last,
        root: String::from_str(rt.alloc(), root)?,
        replaced: Replaced::new(rt.alloc()),
        may_hand_on: false,
        walked: crate_from(rt, disk, root, last, None)?,
    };
    enter_calls(rt, disk, &mut whole, expands)?;
    Ok(whole)
}
