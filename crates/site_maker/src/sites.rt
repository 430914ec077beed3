//! Whole sites.
ghost use Rattle.std.specs.Prelude.{◌≡◌, ◌≤◌, IfOk, length};
ghost use Rattle.site_maker.specs.Site.{site_text};

use crate::kinds::Kind;
use crate::maker::Maker;
use crate::memory::NoMemory;
use std::alloc::Global;

const GRID: &str =
    "{\"do\":\"grid\",\"name\":\"g\",\"x\":-375000,\"y\":-375000,\"step\":50000,\"columns\":16,\"rows\":16,\"h\":4000}\n";

const SETTLE: &str = "{\"do\":\"settle\"}\n";

/// The lines of input of the site of this number: 28 parts, a grid of 256 receivers, a settle, 40 edits and a settle,
/// 71 lines, each with its line feed. The text is ASCII, and some 8 KB long, so a caller may read it as it reads its
/// input, from a source in memory.
pub fn site(alloc: Global, number: u32) -> Result<Vec<u8>, NoMemory>
    ensures text { IfOk result (λ text. text.items ≡ site_text number) }
    ensures short { IfOk result (λ text. length text.items ≤ 65536) }
{
    let mut maker = Maker::new(alloc, number);
    maker.parts(Kind::Source)?;
    maker.parts(Kind::Building)?;
    maker.parts(Kind::Barrier)?;
    maker.parts(Kind::Zone)?;
    maker.line(GRID)?;
    maker.line(SETTLE)?;
    maker.edits(40)?;
    maker.line(SETTLE)?;
    Ok(maker.text.into_bytes())
}
