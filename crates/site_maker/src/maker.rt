//! The text of a site, line after line.
ghost use Rattle.std.specs.Prelude.{◌≡◌, ◌<◌, [], OnOk, string_bytes};
ghost use Rattle.site_maker.specs.Draws.{gives};
ghost use Rattle.site_maker.specs.inner.Making.{Adds};
ghost use Rattle.site_maker.specs.Parts.{part};
ghost use Rattle.site_maker.specs.Site.{all_of, edit, each_below};

use crate::draws::Draws;
use crate::kinds::Kind;
use crate::memory::NoMemory;
use crate::parts::part;
use std::alloc::Global;

/// The text so far, and the draws that the next lines go by.
#[derive(Drop)]
pub(crate) struct Maker {
    pub alloc: Global,
    pub draws: Draws,
    pub text: String,
}

impl Maker {
    /// Nothing yet, from the number of a site.
    pub fn new(alloc: Global, number: u32) -> Maker
        ensures state { result.draws.state ≡ number }
        ensures text { string_bytes result.text ≡ [] }
    {
        Maker {
            alloc,
            draws: Draws {
                state: u64::from(number),
            },
            text: String::new(alloc),
        }
    }

    /// Adds a line for which nothing is drawn.
    pub fn line(&mut self, line: &str) -> Result<(), NoMemory>
        ensures { OnOk result (Adds (gives line.now) self.old self.new) }
    {
        self.text.push_str(line)?;
        Ok(())
    }

    /// Adds a part of a kind.
    fn part(&mut self, kind: Kind, number: u32) -> Result<(), NoMemory>
        ensures { OnOk result (Adds (part kind number) self.old self.new) }
    {
        let line = part(self.alloc, &mut self.draws, kind, number)?;
        self.text.push_str(line.as_str())?;
        Ok(())
    }

    /// Adds all parts of a kind.
    #[tactic(auto, unfolding(crate::specs::Site::each_below))]
    pub fn parts(&mut self, kind: Kind) -> Result<(), NoMemory>
        ensures { OnOk result (Adds (all_of kind) self.old self.new) }
    {
        for number in 0..kind.count() {
            self.part(kind, number)?;
        }
        Ok(())
    }

    /// Adds an edit: another part in the place of one.
    fn edit(&mut self) -> Result<(), NoMemory>
        ensures { OnOk result (Adds edit self.old self.new) }
    {
        let kind = Kind::at(self.draws.draw(4));
        let number = self.draws.draw(kind.count());
        self.part(kind, number)?;
        Ok(())
    }

    /// Adds this many edits.
    #[tactic(auto, unfolding(crate::specs::Site::each_below))]
    pub fn edits(&mut self, count: u32) -> Result<(), NoMemory>
        ensures { OnOk result (Adds (each_below count (λ _. edit)) self.old self.new) }
    {
        for _ in 0..count {
            self.edit()?;
        }
        Ok(())
    }
}
