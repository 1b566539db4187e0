//! Vectors of a type, a length and a value.

ghost use Rattle.std.specs.Prelude.{◌≡◌, ◌≢◌, ◌<◌, [], length, if◌then◌else◌, IfSome, IfNone};
ghost use Rattle.std.specs.Option.{option_map, option_copied, option_or};
ghost use Rattle.tac_proxy.specs.Vectors as vectors;

// The value so far, or this one if there is none and its type is the wanted one.
fn earlier<'a>(found: Option<&'a [u8]>, is_wanted: bool, value: &'a [u8]) -> Option<&'a [u8]>
    ensures { option_copied result ≡ option_or (option_copied found.entry)
        (if is_wanted then Some value.now else None) }
{
    if found.is_none() && is_wanted {
        return Some(value);
    }
    found
}

// The type and the value of the first of these vectors, and what follows it.
fn next_vector(bytes: &[u8]) -> Option<(u8, &[u8], &[u8])>
    ensures some { IfSome result (λ next. vectors.vectors_after 0 bytes.now
        ≡ option_map (vectors.followed_by next.0 next.1.now)
        (vectors.vectors_after 0 next.2.now)) }
    ensures shorter { IfSome result (λ next. length next.2.now < length bytes.now) }
    ensures none { IfNone result (bytes.now ≢ [] → vectors.vectors_after 0 bytes.now ≡ None) }
{
    let Some((head, after)) = bytes.split_first_chunk::<3>() else {
        return None;
    };
    let size = usize::from(head[1]) * 256 + usize::from(head[2]);
    if size > after.len() {
        return None;
    }
    let (value, rest) = after.split_at(size);
    Some((head[0], value, rest))
}

// The value of the first vector of a type; nothing where the lengths don't add up to the bytes.
pub(crate) fn first_value(bytes: &[u8], kind: u8) -> Option<Option<&[u8]>>
    ensures { option_map option_copied result ≡ vectors.first_value kind bytes.now }
{
    let mut rest = bytes;
    let mut found = None;
    'vectors: while !rest.is_empty() {
        let Some((first, value, after)) = next_vector(rest) else {
            return None;
        };
        found = earlier(found, first == kind, value);
        rest = after;
    }
    Some(found)
}
