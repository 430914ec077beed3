//! The test of a limit on how many parts a scene holds, and the classes that count them.
ghost use Rattle.std.specs.Prelude.{◌≡◌, ◌≤◌, OnOk};
ghost use Rattle.scene_book.specs.Book.{at_most as at_most_of, class_number as class_number_of};
ghost use Rattle.scene_book.specs.Applying.{same_class as same_class_of};

use super::edits::EditFault;
pub use super::named::MAX_RECEIVERS;
use scene_parts::Class;

/// At most so many, or `Full`.
pub(crate) fn at_most(class: Class, limit: u32, count: usize) -> Result<(), EditFault>
    ensures value { result ≡ at_most_of class limit count }
    ensures within { OnOk result (count ≤ limit) }
{
    if count > limit as usize {
        return Err(EditFault::Full { class, limit });
    }
    Ok(())
}

/// Whether two classes are one.
pub(crate) fn same_class(a: Class, b: Class) -> bool
    ensures { result ≡ same_class_of a b }
{
    class_number(a) == class_number(b)
}

fn class_number(class: Class) -> u8
    ensures { result ≡ class_number_of class }
{
    class as u8
}
