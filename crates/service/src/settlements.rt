// What settling an entry of a committed transaction does to the item's version.
ghost use Rattle.std.specs.Prelude.{◌≡◌, List, if◌then◌else◌, None, slice_set};
ghost use Rattle.service.specs.declared.tools.Phase.TheVariants.{Committed};
ghost use Rattle.std.specs.List.{slice_get};
ghost use Rattle.store.specs.declared.Version.{Version as Stored};
ghost use Rattle.service.specs.Entries.{settled_version};
ghost use Rattle.service.specs.Service.{is, version};
ghost use Rattle.service.specs.Desks.{changed};

use crate::desks::Change;
use crate::tools::{Entry, Phase};
use store::{Stamp, Version};

fn settled(entry: Entry, stamp: Stamp, before: Version) -> Version
    ensures { result ≡ settled_version entry stamp before }
{
    let mut after = before;
    if entry.seen.is_some() {
        after.tread = before.tread.max(stamp);
    }
    // A write that comes after a later one is dropped.
    if entry.written && before.twrite < stamp {
        after.value = entry.value;
        after.twrite = stamp;
    }
    after
}

// The version to put for an entry of a committed transaction, if it is another than the one found.
fn committed(stamp: Stamp, entry: Entry, found: Option<Version>) -> Option<Change>
    ensures value { (vs : List Stored) → slice_get vs entry.item ≡ found → changed result vs ≡ slice_set vs entry.item (settled_version entry stamp (version vs entry.item)) }
    ensures quiet { (vs : List Stored) → slice_get vs entry.item ≡ found → changed result vs ≡ vs → result ≡ None }
{
    let before = found?;
    let after = settled(entry, stamp, before);
    (after != before).then_some(Change {
        item: entry.item,
        version: after,
    })
}

// What settling an entry puts: nothing unless its transaction is committed. The stamp is the tool's and not the entry's, and
// so goes beside it.
pub(crate) fn settlement(
    phase: Phase,
    stamp: Stamp,
    entry: Entry,
    found: Option<Version>,
) -> Option<Change>
    ensures value { (vs : List Stored) → slice_get vs entry.item ≡ found → changed result vs ≡ (if is phase Committed then slice_set vs entry.item (settled_version entry stamp (version vs entry.item)) else vs) }
    ensures quiet { (vs : List Stored) → slice_get vs entry.item ≡ found → changed result vs ≡ vs → result ≡ None }
{
    if phase == Phase::Committed {
        committed(stamp, entry, found)
    } else {
        None
    }
}
