//! Four things round the table.
ghost use Rattle.std.specs.Prelude.{◌≡◌, ◌<◌, ◌++◌, drop, take};

/// Four things clockwise from the one at this place, in place of from the first one.
pub fn turned<T>(four: [T; 4], place: u8) -> [T; 4]
    requires { place < 4 }
    ensures { result ≡ drop place four ++ take place four }
{
    let [a, b, c, d] = four;
    match place {
        0 => [a, b, c, d],
        1 => [b, c, d, a],
        2 => [c, d, a, b],
        _ => [d, a, b, c],
    }
}
