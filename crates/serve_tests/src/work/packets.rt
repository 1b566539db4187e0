//! Packets as they are sent, under the key `k`, and what they are answered. The pads were worked
//! out by Python's hashlib, by the formula of RFC 8907, section 4.5.

/// Bob asks for `show version`.
pub(crate) const QUESTION: &str =
    "c0020100000000010000003690a52092e073abe37a83a80fde418916a03e5b091cc67a80e7cf8d550a93\
     601dda211b3edffc95e3d00d25cbbfb9e0cab3540dca7538";

/// He may.
pub(crate) const PERMISSION: &str = "c00202000000000100000006562482bc289f";

/// He asks in two sessions of a single connection.
pub(crate) const QUESTIONS: &str =
    "c0020104000000010000003690a52092e073abe37a83a80fde418916a03e5b091cc67a80e7cf8d550a93\
     601dda211b3edffc95e3d00d25cbbfb9e0cab3540dca7538\
     c0020104000000020000003621a325383c3663dd1e327f04e5c23e7e4e10f9d08f61d1463f1622bbd8b5\
     44b0fe10c020b00f7f3ed5f895b72ec271bd062e24aa636a";

/// He may in both.
pub(crate) const PERMISSIONS: &str = "c00202040000000100000006562482bc289f\
     c00202040000000200000006d38b43c60798";

/// The first of the two alone.
pub(crate) const FIRST_QUESTION: &str =
    "c0020104000000010000003690a52092e073abe37a83a80fde418916a03e5b091cc67a80e7cf8d550a93\
     601dda211b3edffc95e3d00d25cbbfb9e0cab3540dca7538";

/// An update by bob, of task 7, as the second session of a single connection.
pub(crate) const RECORD: &str =
    "c0030104000000020000001a2da425383e3167de12331209e8d43e730754ebc69648d141671c";

/// Bob begins two logins on a single connection, and ends the second before the first.
pub(crate) const LOGINS: &str = "c0010104000000010000000b97a52092e077abe015e4c5\
     c0010104000000020000000b26a325383c3263de715512\
     c0010304000000020000000bc84eaf74cd4aa2327d1993\
     c0010304000000010000000b7f090883be138322b460c2";

/// He is asked for his password in each, and has passed in each.
pub(crate) const PASSES: &str = "c00102040000000100000010522582b6289f913a6c4d9b8d22bf4089\
     c00102040000000200000010d78a43cc0798d5d8e1c66296530a1cab\
     c0010404000000020000000603c43deb0a96\
     c0010404000000010000000694045fbcee3f";

/// Bob logs in with a wrong password, on a connection that is kept.
pub(crate) const WRONG_LOGIN: &str = "c1010104000000010000000c3dd7cba499eff4beeede7464";

/// He fails.
pub(crate) const FAILURE: &str =
    "c1010204000000010000001ba720d52e2e340e0563c168c99a2278016c23b88209c6733cbaccba";
