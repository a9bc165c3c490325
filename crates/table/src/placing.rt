// How names and elements are put into their areas.
ghost use Rattle.std.specs.Prelude.{◌≡◌, ◌+◌, ◌<◌, ◌≤◌, [], ◌∷◌, ◌++◌, map, length};
ghost use Rattle.elements.specs.Packing.{packed};
ghost use Rattle.meaning.specs.Adding.{over};

use elements::{Element, ElementType};

// Puts a name and its zero byte into the area, from `at` on.
pub(crate) fn put_name(area: &mut [u8], at: usize, name: &[u8])
    requires { at + length name.now < length area.old }
    ensures { area.new ≡ over at (name.now ++ 0 ∷ []) area.old }
{
    let end = at + name.len();
    area[at..end].copy_from_slice(name);
    area[end] = 0;
}

// Puts the elements of a tail into the area, from `at` on: one text for every type of elements.
pub(crate) fn put_tail<E: ElementType>(area: &mut [Element], at: usize, tail: &[E])
    requires { at + length tail.now ≤ length area.old }
    ensures { area.new ≡ over at (map packed (map E.meaning tail.now)) area.old }
{
    // by index: of an area that was written through a zip of `iter_mut`, a proof knows no more than the length
    for (i, element) in tail.iter().enumerate() {
        area[at + i] = element.pack();
    }
}
