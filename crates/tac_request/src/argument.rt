//! Arguments of a request.

ghost use Rattle.std.specs.Prelude.{◌≡◌, ◌++◌, ◌∷◌, MatchOption, IfSome, IfNone, Some, None, false};
ghost use Rattle.std.specs.List.{list_any};
ghost use Rattle.tac_request.specs.Argument.{argument_of, is_sign, sign};

/// An argument of a request, in its parts (RFC 8907, section 6.1).
#[derive(Clone, Copy, Debug)]
pub struct Arg<'a> {
    pub name: &'a [u8],
    /// Whether the sign between name and value is `=`, and not `*`.
    pub mandatory: bool,
    pub value: &'a [u8],
}

/// The parts of an argument, which its first `=` or `*` separates; `None` where it has neither.
pub fn split_arg(argument: &[u8]) -> Option<Arg<'_>>
    ensures exact { MatchOption result (argument_of argument.now ≡ None)
        (λ arg. argument_of argument.now
        ≡ Some (record { name = arg.name.now; mandatory = arg.mandatory; value = arg.value.now })) }
    // The parts are the argument, and the sign is the first.
    ensures parts { IfSome result
        (λ arg. argument.now ≡ arg.name.now ++ sign arg.mandatory ∷ arg.value.now) }
    ensures first { IfSome result (λ arg. list_any is_sign arg.name.now ≡ false) }
    ensures none { IfNone result (list_any is_sign argument.now ≡ false) }
{
    for (i, byte) in argument.iter().enumerate() {
        if matches!(*byte, b'=' | b'*') {
            let (name, rest) = argument.split_at(i);
            return Some(Arg {
                name,
                mandatory: *byte == b'=',
                value: &rest[1..],
            });
        }
    }
    None
}
