//! The pieces of a line that it doesn't put anew.
ghost use Rattle.std.specs.Prelude.{◌≡◌, ◌++◌, ◌∷◌, [], IfOk, OnOk};
ghost use Rattle.line_sources.specs.Pieces.{beyond as beyond_of, is_put as is_put_of};

use crate::names::is_piece;
use scene_parts::{Name, NoMemory, PointSource};
use std::alloc::Global;

/// The names of the pieces of a line that are in a list of sources and not among its new ones.
pub(crate) fn beyond(
    alloc: Global,
    name: &[u8],
    news: &[PointSource],
    sources: &[PointSource],
) -> Result<Vec<Name>, NoMemory>
    ensures { IfOk result (λ names. names.items ≡ beyond_of name.now news.now sources.now) }
{
    let mut names = Vec::new(alloc);
    for source in sources {
        add_beyond(name, news, source, &mut names)?;
    }
    Ok(names)
}

/// Adds the name of a source, where it is such a piece.
fn add_beyond(
    name: &[u8],
    news: &[PointSource],
    source: &PointSource,
    names: &mut Vec<Name>,
) -> Result<(), NoMemory>
    ensures { OnOk result
        (names.new.items ≡ names.old.items ++ beyond_of name.now news.now (source.now ∷ [])) }
{
    if is_piece(name, source.name.items()) && !is_put(news, source.name.items()) {
        names.push(source.name.clone()?)?;
    }
    Ok(())
}

/// Whether one of these sources has this name.
fn is_put(news: &[PointSource], name: &[u8]) -> bool
    ensures { result ≡ is_put_of news.now name.now }
{
    news.iter().any(|new| name == new.name.items())
}
