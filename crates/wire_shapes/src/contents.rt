// What a field's contents look like.
ghost use Rattle.std.specs.Prelude.{◌≡◌, ◌+◌, ◌≤◌, length};
ghost use Rattle.octet.specs.Part.{part};
ghost use Rattle.record.specs.Entry.{entry_form};
ghost use Rattle.wire_shapes.specs.Shapes.{has_shape, array_form, lookup_form, split_form};

use crate::Shape;

// Whether the contents at a place have a shape.
pub fn has_shape(d: &[u8], start: usize, len: usize, shape: Shape) -> bool
    requires { start + len ≤ length d.now }
    ensures { result ≡ has_shape shape (part start len d.now) }
{
    match shape {
        Shape::Sized(n) => len == n,
        Shape::Any => true,
        Shape::Entry => is_entry(d, start, len),
        Shape::Lookup => is_lookup(d, start, len),
        Shape::Split => is_split(d, start, len),
        Shape::Array(element, size, least, most) => is_array(
            d, start, len, element, size, least, most,
        ),
    }
}

fn wide(n: u8) -> usize
    ensures { result ≡ n }
{
    n as usize
}

// A route entry of 1 to 4 addresses: one has 54 bytes.
pub fn is_entry(d: &[u8], start: usize, len: usize) -> bool
    requires { start + len ≤ length d.now }
    ensures { result ≡ entry_form (part start len d.now) }
{
    if len < 54 {
        return false;
    }
    let count = wide(d[start + 37]);
    if 4 < count {
        return false;
    }
    len == 38 + 16 * count
}

// LOOKUP's controls: eight bytes, a reason up to 3 and one of five criteria.
pub fn is_lookup(d: &[u8], start: usize, len: usize) -> bool
    requires { start + len ≤ length d.now }
    ensures { result ≡ lookup_form (part start len d.now) }
{
    if len != 8 {
        return false;
    }
    if 3 < d[start + 5] {
        return false;
    }
    let criteria = d[start + 4];
    if criteria <= 2 {
        return true;
    }
    if criteria == 4 {
        return true;
    }
    criteria == 8
}

// AUTHORITY's split controls: a size up to 37,348 and an offset that is a multiple of 1,188.
pub fn is_split(d: &[u8], start: usize, len: usize) -> bool
    requires { start + len ≤ length d.now }
    ensures { result ≡ split_form (part start len d.now) }
{
    if len != 4 {
        return false;
    }
    if 0x91E4 < octet::read_u16(d, start) {
        return false;
    }
    octet::read_u16(d, start + 2) % 1188 == 0
}

// An array of elements of a number and a size.
pub fn is_array(
    d: &[u8],
    start: usize,
    len: usize,
    element: u16,
    size: u16,
    least: u16,
    most: u16,
) -> bool
    requires { start + len ≤ length d.now }
    ensures { result ≡ array_form element size least most (part start len d.now) }
{
    if len < 8 {
        return false;
    }
    let count = octet::read_u16(d, start);
    if count < least {
        return false;
    }
    if most < count {
        return false;
    }
    let whole = 8 + (count as usize) * (size as usize);
    if octet::read_u16(d, start + 2) as usize != whole {
        return false;
    }
    if octet::read_u16(d, start + 4) != element {
        return false;
    }
    if octet::read_u16(d, start + 6) != size {
        return false;
    }
    len == whole
}
