//! Draws of pseudo-random numbers.
ghost use Rattle.std.specs.Prelude.{◌≡◌, ◌<◌, ◌≤◌, ◌+◌, ◌^◌, ◌+ℤ◌, ◌≤ℤ◌, ◌<ℤ◌, pos, neg_ℤ};
ghost use Rattle.site_maker.specs.Draws.{draw, draw_from, place, rectangle, times};

use crate::rectangle::Rectangle;

/// A linear congruence modulo 2^64, by its state.
#[derive(Drop)]
pub(crate) struct Draws {
    pub state: u64,
}

impl Draws {
    /// A number below `many`.
    #[tactic(auto, unfolding(crate::specs::Draws::next_state))]
    pub fn draw(&mut self, many: u32) -> u32
        requires { 0 < many }
        ensures value { result ≡ (draw many self.old.state).0 }
        ensures state { self.new.state ≡ (draw many self.old.state).1 }
        ensures below { result < many }
    {
        self.state = self
            .state
            .wrapping_mul(6_364_136_223_846_793_005)
            .wrapping_add(1_442_695_040_888_963_407);
        (self.state >> 33) as u32 % many
    }

    /// A number from `least` on, of as many.
    pub fn draw_from(&mut self, least: u32, many: u32) -> u32
        requires some { 0 < many }
        requires fits { least + many ≤ 2 ^ 32 }
        ensures value { result ≡ (draw_from least many self.old.state).0 }
        ensures state { self.new.state ≡ (draw_from least many self.old.state).1 }
        ensures below { result < least + many }
    {
        least + self.draw(many)
    }

    /// A coordinate in the plan, in mm.
    pub fn place(&mut self) -> i32
        ensures value { result ≡ (place self.old.state).0 }
        ensures state { self.new.state ≡ (place self.old.state).1 }
        ensures low { neg_ℤ (pos 400000) ≤ℤ result }
        ensures high { result <ℤ pos 400000 }
    {
        self.draw(800_000) as i32 - 400_000
    }

    /// A rectangle in the plan, of which width and depth are numbers from `least` on, of as many.
    pub fn rectangle(&mut self, least: u32, many: u32) -> Rectangle
        requires some { 0 < many }
        requires fits { least + many ≤ 1000000 }
        ensures value { result ≡ (rectangle least many self.old.state).0 }
        ensures state { self.new.state ≡ (rectangle least many self.old.state).1 }
    {
        let (left, bottom) = (self.place(), self.place());
        let right = left + self.draw_from(least, many) as i32;
        let top = bottom + self.draw_from(least, many) as i32;
        Rectangle {
            left,
            bottom,
            right,
            top,
        }
    }

    /// The powers of a source in the eight bands, in 0.01 dB.
    pub fn powers(&mut self) -> [u32; 8]
        ensures values { result ≡ (times 8 (draw_from 8000 3000) self.old.state).0 }
        ensures state { self.new.state ≡ (times 8 (draw_from 8000 3000) self.old.state).1 }
    {
        [
            self.draw_from(8000, 3000),
            self.draw_from(8000, 3000),
            self.draw_from(8000, 3000),
            self.draw_from(8000, 3000),
            self.draw_from(8000, 3000),
            self.draw_from(8000, 3000),
            self.draw_from(8000, 3000),
            self.draw_from(8000, 3000),
        ]
    }
}
