//! What is found by a name without a scan.
ghost use Rattle.std.specs.Prelude.{◌≡◌, ℕ, List, IfOk, option_map, is_some};
ghost use Rattle.std.specs.Map.{lookup};
ghost use Rattle.scene_book.specs.Lists.{named};
ghost use Rattle.level_contours.specs.Looking.{known_total};
ghost use Rattle.level_contours.specs.inner.Filing.{is_key};

use fix_interval::Iv;
use indexmap::IndexMap;
use map_board::{LookRow, Shown};
use scene_parts::{NoMemory, Receiver};
use std::alloc::Global;

/// What is known of the total level of each receiver of a look, by its name. Where two rows bear one name, the first counts.
pub fn totals(alloc: Global, rows: &[LookRow]) -> Result<IndexMap<Vec<u8>, Iv>, NoMemory>
    ensures { IfOk result (λ totals. (name : List ℕ) → lookup (is_key name) totals.entries
        ≡ option_map (λ row. known_total row.shown) (named (λ row. row.name) name rows.now)) }
{
    let mut totals = IndexMap::new(alloc);
    for place in (0..rows.len()).rev() {
        let row = &rows[place];
        let key = key_of(alloc, row.name.items())?;
        let _later = totals.insert(key, known(&row.shown))?;
    }
    Ok(totals)
}

/// What is known of the total level of a receiver that is shown so.
fn known(shown: &Shown) -> Iv
    ensures { result ≡ known_total shown.now }
{
    match shown {
        Shown::Current(levels) => levels.total,
        Shown::Stale { .. } | Shown::New { .. } => Iv::ALL,
    }
}

/// The names of these receivers.
pub fn filed(alloc: Global, receivers: &[Receiver]) -> Result<IndexMap<Vec<u8>, ()>, NoMemory>
    ensures { IfOk result (λ names. (name : List ℕ) → is_some (lookup (is_key name) names.entries)
        ≡ is_some (named (λ r. r.name) name receivers.now)) }
{
    let mut names = IndexMap::new(alloc);
    for place in (0..receivers.len()).rev() {
        let receiver = &receivers[place];
        let key = key_of(alloc, receiver.name.items())?;
        let _later = names.insert(key, ())?;
    }
    Ok(names)
}

/// A name as a key.
fn key_of(alloc: Global, name: &[u8]) -> Result<Vec<u8>, NoMemory>
    ensures { IfOk result (λ key. key.items ≡ name.now) }
{
    Ok(name.to_vec(alloc)?)
}
