//! Intervals of fixed-point numbers that enclose every quantity of the calculation, and the powers of ten that the crates
//! of powers and of logarithms above share.
#![tactic(auto)]

mod iv;
mod laws;
mod powers_of_ten;
mod products;
mod quotients;
mod roots;
mod truth;
mod values;

pub use iv::{Iv, OPEN_HI, OPEN_LO};
pub use laws::{
    formulas_are_enclosed, formulas_keep_their_ranges, holding_encloses, table_encloses,
    table_gives_intervals,
};
pub use powers_of_ten::fraction_digits::{six_digits, taken};
pub use powers_of_ten::fraction_powers::{fraction_down, fraction_up};
pub use powers_of_ten::power_estimates::{POWER_MARGIN, high_estimate, low_estimate};
pub use powers_of_ten::power_of_ten;
pub use products::mul;
pub use products::whole_factors::{over, times};
pub use quotients::{div, exact, ratio};
pub use roots::hypotenuse::hypotenuse;
pub use roots::root;
pub use truth::Truth;
pub use values::{add, hull, less, max, min, neg, pick, sub};
