// "`split` becomes parts of the string handed on" (01, "Shapes that cannot come over").
ghost use Rattle.std.specs.Prelude.{◌≡◌, ◌∷◌, option_copied};
ghost use Rattle.fields.specs.Parts.{end_of, parts_of, parts_left};

// Where the part that starts at `from` ends: at the first `separator` from there on, or at the end of the string.
pub fn part_end(s: &[u8], from: usize, separator: u8) -> usize
    ensures { result ≡ end_of separator s.now from }
{
    let rest = s.get(from..).unwrap_or(&[]);
    from + rest
        .iter()
        .position(|&byte| byte == separator)
        .unwrap_or(rest.len())
}

// The first part, and what stands behind the separator at its end, if there is one.
pub fn first_part(s: &[u8], separator: u8) -> (&[u8], Option<&[u8]>)
    ensures { parts_of separator s.now ≡ result.0.now ∷ parts_left separator (option_copied result.1) }
{
    let end = part_end(s, 0, separator);
    (&s[..end], s.get(end + 1..))
}
