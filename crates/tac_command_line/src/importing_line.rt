//! The words that `import` takes.

use crate::command_line::{FILE, required, text, with_page};
use crate::help::Page;
use clap::Command;
use std::alloc::{AllocError, Global};

/// The word that asks for an import.
pub const IMPORT: &str = "import";

/// The file that takes the key.
pub const KEY_TO: &str = "key-to";

/// The file that takes the devices.
pub const DEVICES_TO: &str = "devices-to";

const IMPORT_FILE_HELP: &str = "The configuration of tac_plus F4.0.4, at most 268435456 bytes";

const KEY_TO_HELP: &str =
    "Write the key of the file here, for 'serve --key-file'; a new file is its owner's alone";

const DEVICES_TO_HELP: &str =
    "Write the hosts of the file here, for 'serve --devices'; a new file is its owner's alone";

const IMPORT_PAGE: Page = Page {
    about: "Prints the policy that a configuration of tac_plus becomes",
    long_about: "Reads a configuration of tac_plus F4.0.4, and prints the policy that it becomes. Standard error
tells, line by line, what no policy says and was left out, and what was decided.

A 'cmd' of the nearest user or group decides on its command alone. Its regular expressions are
searched for in the arguments, as tac_plus does, and become patterns that fit whole lines. Who is
given 'login', 'pap' or 'enable' in the clear, or as a hash that begins with '$6$', keeps it.",
    after_help: "Example:
  tacd import tac_plus.conf > campus.policy

'tacd import --help' describes what is printed.",
    after_long_help: "What is told on standard error, in the order of the lines:
  FILE line N: TEXT    what of line N was left out or decided; where FILE isn't a configuration of
                       tac_plus F4.0.4, why that is so, and then this is all

Look at the policy by 'tacd check' and 'tacd lint' before a server has it.

Example:
  $ cat tac_plus.conf
  user = bob {
    login = cleartext blue-lake
    expires = \"Dec 31 2027\"
    cmd = show { deny run permit .* }
  }
  $ tacd import tac_plus.conf
  tac_plus.conf line 3: 'expires' has no equal here: left out
  policy 2
  user bob
  login blue-lake
  deny show .*run.*
  permit show( .*)?

Exit status:
  0  all was said
  1  FILE is no configuration of tac_plus F4.0.4, and why was told
  2  the command line is wrong
  3  memory ran out
  4  a file could not be read or written, or the output could not be written
  5  something was left out",
};

/// What the command line of `import` may be.
pub(crate) fn import_command<'a>(alloc: Global) -> Result<Command<'a>, AllocError> {
    with_page(alloc, IMPORT, IMPORT_PAGE)
        .arg(text(alloc, KEY_TO, "OUT", KEY_TO_HELP))?
        .arg(text(alloc, DEVICES_TO, "OUT", DEVICES_TO_HELP))?
        .arg(required(alloc, FILE, IMPORT_FILE_HELP))
}
