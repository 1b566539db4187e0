//! The texts of the program's help.

// A text with the lines of subjects, their settings and their rules, and with how the lines of a
// policy are read and what they mean.
macro_rules! with_policy_lines {
    ($before:literal, $between:literal, $after:literal) => {
        concat!(
            $before,
            "
    group NAME           begins a group; with ' in GROUP', one that has that group's rules too
    user NAME            begins a user; with ' in GROUP', one that has that group's rules too
    login TEXT           what the user above it logs in with, 1 to 128 characters
    enable TEXT          what the user above it enables with
    login-hash HASH      what he logs in with, as a hash that 'openssl passwd -6' makes
    enable-hash HASH     what he enables with, as such a hash
    priv N               the level, 0 to 15, of the shells of the user or group above it
    service S            it may use the service S, a NAME or NAME/PROTOCOL; with ' ATTRIBUTE' after
                         it, as ' role=ops', it is given that
    refuse S             it may not use S, whatever its groups say
    permit PATTERN       the next rule of the user or group above it
    deny PATTERN         the next rule of the user or group above it
",
            $between,
            "\
In the policy, empty lines, lines that begin with '#' and leading spaces are passed over. A NAME is
1 to 32 of the characters A-Z a-z 0-9 _ - . @. A PATTERN, up to 400 characters long, is to fit a
whole command line: '.' fits any character, '[a-z]' and '[^a-z]' one of a class or one that isn't in
it, 'A|B' what A or B fits; after a character, a class or a part in parentheses, '*' means any
number of it, '+' at least one, '?' at most one, '{3}' three and '{1,3}' one to three, where no
number is over 32; a '\\' takes the next character as it is. Where the first line says no version,
a PATTERN of the policy has at most 200 characters, and '{' and '}' fit themselves; in edits they
always count. The first rule that fits decides, a user's own before the group's, and a group's own
before those of its group; where none fits, the command is denied.
",
            $after
        )
    };
}

/// The help of a command.
#[derive(Clone, Copy)]
pub(crate) struct Page {
    /// What it is for, in a line.
    pub(crate) about: &'static str,
    /// What `--help` begins with.
    pub(crate) long_about: &'static str,
    /// What `-h` ends with.
    pub(crate) after_help: &'static str,
    /// What `--help` ends with.
    pub(crate) after_long_help: &'static str,
}

pub(crate) const ABOUT: &str =
    "Serves TACACS+ by a policy of users and command lines, checks and compares policies, plays scripts";

pub(crate) const LONG_ABOUT: &str =
    "Serves TACACS+ by a policy of users and command lines, checks and compares policies, plays scripts.

A network device that runs TACACS+ (RFC 8907) asks a server who may log in and which command lines a
user may run, and has it record what was done. 'tacd serve' is such a server: it listens on a port,
and takes edits of its policy and questions at a console. 'tacd console' types there where that is at
a socket. 'tacd ask' asks any such server as a device does. 'tacd check' reads a policy and prints
which of its rules decide nothing, 'tacd lint' what in it is probably not meant; 'tacd diff' prints
what a new policy permits and denies that an old one didn't, 'tacd why' which rule decides on a line,
'tacd given' what a user is given for a service, and 'tacd test' whether all is so that a table says.
'tacd devices' reads which devices may call. 'tacd replay' takes what devices send from a script,
together with the policy, and prints what is
answered; it opens no socket.";

pub(crate) const SERVE_PAGE: Page = Page {
    about: "Serves devices on a port, with a console on standard input or at a socket",
    long_about: "Serves devices that run TACACS+ (RFC 8907) on a port, with a console on standard input or at a
socket.

The policy is read from a file, and again where 'reload' is typed at the console. There it is
edited, and an edit counts from the next packet on. Edits and accounting records are kept in memory,
and are gone when the server ends. But where --keep-edits names a file, that has the policy with the
edits, and is served after a restart; and where --log names one, that keeps a line of JSON for each
request and for each line of the console. A request is answered only once its line is in the file.

The key is 1 to 128 printable ASCII characters. Give it by --key-file: a key on the command line can
be seen by everyone with a login on this machine, by 'ps' for one. Or give --devices a file of
devices, each with its addresses and its own key, which 'tacd devices' checks: then a connection from
any other address is closed unanswered.

For TACACS+ over TLS 1.3 (RFC 9887), put stunnel or haproxy in front, which calls the socket of
--proxy: then a device needs no key, but a line 'tls' in that file.",
    after_help: "Example:
  tacd serve --port 49 --key-file tacd.key campus.policy

'tacd serve --help' describes the console and the lines of a policy.",
    after_long_help: with_policy_lines!(
        "\
Each worker is a thread, and serves many connections at once: nobody waits for a device that says
nothing, or for a user who types a password. A connection is closed where the device hangs up, or has
had no reply for so many seconds as --idle or --login-idle says, at most 10 before the first reply.
One beyond --connections-at-once or --per-address is closed as it comes, and none is given up for it.

Standard output has 'listening PORT' first, or 'listening PORT at ADDRESS' with --address, then
'listening PATH' where a proxy calls, and then the answers of a console on standard input.
Standard error says so where too few files may be open for so many connections, as by 'ulimit -n',
and where the policy has no user, so that nobody can log in.

With --log PATH, what is at PATH may also be a FIFO, a pipe as /dev/stdout or a
terminal. A line counts once the pipe took it. Where nobody reads it, or it is
full, no request is answered until it takes lines again; nobody waits for it.
With --log -, standard output has the lines of the log alone, 'listening PORT'
goes to standard error, and --console PATH or --no-console is wanted.

With --check nobody is served. What a start looks at is looked at, and nothing
is bound, made or changed: the words and the status are those of a start, and
'ok' is printed where nothing is wrong. Before a restart, the server may go on
meanwhile: whether the port is taken isn't looked at.

SIGTERM ends the server at once, and so does SIGHUP, unless ./tacd or the package's service started
it: it goes on then. To run it in the background or in a container, give --console PATH, where
operators type by 'tacd console PATH', or --no-console. The package's service has
--console /run/tacd/console; further options stand in /etc/default/tacd.

Lines of the console, where a SUBJECT is 'user NAME' or 'group NAME':
  policy               the policy as it is now
  shadow               the rules that decide no line, for each user and group
  reach SUBJECT        the shortest line that each of the rules decides
  why NAME LINE        which rule decides on a line of this user
  given NAME S         what this user is given for a service, and by whom
  tally SUBJECT        what the records of a user, or of a group's users, add up to
  records              the accounting records that are kept
  add SUBJECT          a new user or group; with ' in GROUP', one that has that group's rules too
  remove SUBJECT       removes it
  move SUBJECT in GROUP, or move SUBJECT out
  login NAME TEXT, enable NAME TEXT, clear login NAME, clear enable NAME
  login-hash NAME HASH, enable-hash NAME HASH
  priv SUBJECT N, clear priv SUBJECT
  service SUBJECT S, service SUBJECT S ATTRIBUTE, refuse SUBJECT S
  clear service SUBJECT S, clear service SUBJECT S ATTRIBUTE
  insert SUBJECT N permit PATTERN, or deny PATTERN
                       a new rule with this number
  drop SUBJECT N       removes rule N
  shift SUBJECT N M    rule N gets the number M
  begin, commit, abandon
                       edits after 'begin', up to 64, are kept, and made by 'commit' all or none
  reload               the policy's file is read again, and takes the place of the policy
  reload devices       the file of --devices is read again, and counts from the next connection on
  quit                 the server stops, as it does where the input ends

An edit, a 'commit' and a 'reload' are answered by 'ok', and then by what they change for users: the
shortest line that is now permitted, the shortest that is now denied, and what is given otherwise
for services, as 'tacd diff --help' has it; a 'reload' also by whose secrets it sets, changes or
clears. Or they are answered by 'refused' and why, and have changed nothing. A file that is refused
is told as by 'tacd check', and one that can't be read by 'unread' and why. A file without a user is
'fault NoUser' where the policy has one. Where fewer than half of the users are there after a
'reload', its last line says how many are gone, and standard error does too.
A 'reload devices' is answered by 'devices ok' and how many; a file that is refused as by 'tacd
devices', and one that can't be read by 'devices unread' and why. Then those before are served on.
Without --devices it is 'no devices'.
A line that the server doesn't take is answered by 'refused' and why.

With --keep-edits PATH, an edit is on the disk before it is answered: PATH has the policy with all
edits, as 'policy' prints it. Where the disk doesn't take it, 'not kept: ' and why comes before the
answer, the edit counts all the same, and it is tried again before each later answer. Where PATH is
there at a start, it is served in place of FILE. 'reload' takes FILE again, and removes PATH. Beside
PATH the server has two files, '.NAME.tacd-draft' and '.NAME.tacd-lock', where NAME is that of PATH.

Lines of a policy:
  policy 2, policy 3   the first line, if it is there: patterns may count, as '{1,3}'; hashes and
                       services may stand after 'policy 3' alone
  any number of these:",
        "\n",
        "
Where the server stops, the port and all connections are closed at once.

Example:
  $ cat ops.policy
  group ops
  permit show .*
  user bob in ops
  $ tacd serve --port 49 --key-file tacd.key ops.policy
  listening 49
  insert group ops 1 deny show run.*
  ok
  user bob now denies: show run
  why bob show running-config
  denied by group ops rule 1
  quit

Exit status:
  0  the server was stopped, or --check found nothing wrong
  1  the policy is refused, or that of --keep-edits is, and why was printed, as by 'tacd check'; or
     the file of --devices is, as by 'tacd devices'
  2  the command line or the key is wrong
  3  memory ran out, a thread could not be made, or too few files may be open
  4  a file could not be read, that of --log could not be opened, edits can't be kept in that of
     --keep-edits, or another server keeps its own there, the port or the socket of --console could
     not be had, the console could not be read, or the output could not be written, or 'close
     refused' was printed: a worker or the console had no place in the history"
    ),
};

pub(crate) const PORT_HELP: &str = "The TCP port that devices call, 1 to 65535";

pub(crate) const PROXY_HELP: &str =
    "The Unix socket that a TLS proxy calls for devices, each call with a PROXY header first";

pub(crate) const KEY_HELP: &str =
    "The key that server and devices share; other users of this machine see it";

pub(crate) const KEY_FILE_HELP: &str = "The file whose first line is that key";

pub(crate) const DEVICES_FILE_HELP: &str =
    "The file of the devices that may call, each by a key of its own; others are closed";

pub(crate) const ADDRESS_HELP: &str =
    "The IPv4 or IPv6 address to listen at; '::' is every address of both kinds";

pub(crate) const IDLE_HELP: &str =
    "After how many seconds without a reply a connection is closed, 0 to 86400; 0 is never";

pub(crate) const LOGIN_IDLE_HELP: &str =
    "In place of --idle where the last reply asked for a name or a password, 0 to 86400; 0 is never";

pub(crate) const FAIL_DELAY_HELP: &str =
    "For how many milliseconds the reply to a failed login is held back, 0 to 3000";

pub(crate) const KEEP_RECORDS_HELP: &str =
    "Keep the latest records, at most N, 1000 to 10000000; else the first 1000000 are kept";

pub(crate) const WORKERS_HELP: &str =
    "How many threads serve connections, 1 to 63; else as many as processors up to 16, or 16 with --sync";

pub(crate) const AT_ONCE_HELP: &str =
    "How many connections there may be at once, 1 to 1000000; one more is closed";

pub(crate) const PER_ADDRESS_HELP: &str =
    "How many of them may be of one IP address, 0 to 1000000, unless --devices says it; 0 is any number";

pub(crate) const PACKET_MEMORY_HELP: &str =
    "The memory for packets that aren't answered yet, 1 to 65536 MB";

pub(crate) const CONNECTIONS_HELP: &str =
    "For tests: how many connections each worker serves in all before it ends, at least 1";

pub(crate) const ROTATE_AT_HELP: &str =
    "For tests: begin a new segment of the history before the Nth call of one, 1 to 65536";

pub(crate) const LOG_HELP: &str = "Log each request here; '-' is standard output";

pub(crate) const SYNC_HELP: &str = "Answer a device only once its line is on the disk";

pub(crate) const NO_CONSOLE_HELP: &str =
    "Read no standard input, and serve until the process is ended, as by SIGTERM";

pub(crate) const CHECK_ALONE_HELP: &str = "Look at all a start needs, and serve nobody";

pub(crate) const CONSOLE_OPTION_HELP: &str =
    "The socket at which operators type by 'tacd console'; standard input isn't read then";

pub(crate) const KEEP_EDITS_HELP: &str =
    "Keep the policy with the edits of the console in this file, which a restart serves in place of FILE";

pub(crate) const CONSOLE_PAGE: Page = Page {
    about: "Types at the console of a server that has --console",
    long_about: "Types at the console of a server that has --console PATH, and prints what is answered.

The words of a line are joined by blanks. Without a WORD, lines are read: from a terminal, with a
prompt, until the input ends; or from a file or a pipe, each once the one before is answered. There
the first that is refused ends it: the rest isn't sent, and a batch that is open is dropped. 'exit'
and 'logout' end the session, as the end of the input does; 'quit' stops the server. Empty lines, and
lines that begin with '#', are passed over, and a line may end in CR LF.

'tacd serve --help' describes the lines and their answers. At a socket there are three more: 'help';
'status', which tells how the server is, as lines that Prometheus reads; and 'operator NAME', which
tells others and the log who types. This program says that by itself, from SUDO_USER, LOGNAME or
USER. Eight operators may be there at once. While one of them has a batch open, edits of the others
are answered by 'busy NAME'; he loses it where he types nothing for a minute.",
    after_help: "Examples:
  tacd console /run/tacd/console why ben show vlan
  tacd console /run/tacd/console < changes

'tacd console --help' describes what is printed.",
    after_long_help: "What is printed on standard error where a line of a file is refused:
  tacd: line N: ANSWER; later lines weren't sent
And where a line is answered by 'refused 1 BadEdit', with the nearest word of a console if one is near:
  tacd: is 'WORD' meant? If not, type help
  tacd: type help

Examples:
  $ tacd console /run/tacd/console why ben show vlan
  permitted by group staff rule 4
  $ tacd diff --edits saved.policy campus.policy | tacd console /run/tacd/console
  $ tacd console /run/tacd/console quit
  ok

Exit status:
  0  each line was answered, and none was refused
  1  a line was refused: its answer began with 'refused' and a number or with 'refused at edit', or
     with 'fault', 'unread', 'devices fault', 'devices unread' or 'busy'
  2  the command line is wrong
  3  memory ran out
  4  no server listens at PATH, all of its places are taken, it ended the session, or reading or writing
     failed
  5  an answer began with 'not kept', and none as at 1: an edit was made, and a restart would lose it",
};

pub(crate) const CONSOLE_PATH_HELP: &str = "The server's socket; root and its own user can open it";

pub(crate) const WORD_HELP: &str = "The words of a line; without any, lines are read";

pub(crate) const CHECK_PAGE: Page = Page {
    about: "Reads a policy, and prints which of its rules decide nothing",
    long_about: "Reads a policy, and prints how much it has and which of its rules decide nothing.

A rule decides nothing for a user or a group if each command line that it fits is decided by a rule
before it, by one of them alone or by several together. Such a rule is mostly a mistake. A policy
that is wrong is refused, and the first line that is no line of a policy is named. Where each is one,
it is the line of a subject whose group isn't there, whose groups run in a circle or are too many.",
    after_help: "Example:
  tacd check campus.policy

'tacd check --help' describes what is printed and the lines of a policy.",
    after_long_help: with_policy_lines!(
        "Lines of a policy:
  policy 2, policy 3   the first line, if it is there: patterns may count, as '{1,3}'; hashes and
                       services may stand after 'policy 3' alone
  any number of these:",
        "\n",
        "
What is printed of a policy that may stand, with the last line where no rule is shadowed:
  policy ok: S subjects, R rules, N service lines
                       the last count only where there are any
  shadowed in SUBJECT: OWNER rule N
                       rule N of OWNER decides no line of the user or group SUBJECT
  none

What is printed of one that is refused:
  fault line L FAULT   line L of the file is wrong
  fault TooManyStates SUBJECT
                       the rules along SUBJECT and its groups are too large together
  fault Memory         memory ran out
Standard error then names 'tacd lint', which says more.

Example:
  $ cat desk.policy
  group desk
  permit clear (counters|arp)( .*)?
  deny clear arp
  user eve in desk
  $ tacd check desk.policy
  policy ok: 2 subjects, 2 rules
  shadowed in group desk: group desk rule 2
  shadowed in user eve: group desk rule 2

Exit status:
  0  the policy may stand, whether rules are shadowed or not
  1  the policy is refused, and why was printed
  2  the command line is wrong
  3  memory ran out
  4  the file could not be read, or the output could not be written"
    ),
};

pub(crate) const FILE_HELP: &str = "The policy's text, at most 268435456 bytes";

pub(crate) const INPUT_HELP: &str =
    "The policy's text, at most 268435456 bytes; '-' is standard input";

pub(crate) const VERSION_ABOUT: &str = "Prints the version";

pub(crate) const STATUS_HELP: &str =
    "End with status 0 where it is permitted or given, 5 where it isn't, and 1 where no such user is";

pub(crate) const LINT_PAGE: Page = Page {
    about: "Prints what a policy says and probably doesn't mean",
    long_about: "Reads a policy, and prints what in it is right and probably not meant: questions about its rules
and subjects, each with its line and column. What it says never changes what the policy means.

It asks about what other pattern languages read otherwise ('^', '$', '\\d', '[[:alpha:]]', '{1,3}'),
about ' # ' in a pattern, about spaces and quotes round patterns and secrets, spaces at the end of
attributes, passwords that look like hashes, hashes of over 20000 rounds, a service 'exec', mandatory
attributes of shells, levels, attributes and logins for a shell that nobody there may start, 'enable'
where the level is below 15, an odd number of '\"' in an attribute, rules without the word <cr> that
Cisco IOS ends each line with, and ones that begin with an abbreviation that IOS expands ('conf t'),
groups that nobody is in, users without a login, a user DEFAULT, an empty policy, and it names rules
that decide nothing.
Of a policy that is refused it prints every wrong line, and not only the first, and why each is
wrong; where it is too large, which rules may double its states.",
    after_help: "Example:
  tacd lint campus.policy

'tacd lint --help' describes what is printed; 'tacd replay --help' the lines of a policy.",
    after_long_help: "'tacd replay --help' describes the lines of a policy.

What is printed, a line for each; columns count bytes from 1, and what is said of the whole line, or
of the whole policy, is at column 1:
  line N column M: TEXT

Example:
  $ cat eve.policy
  group desk
  permit ^show \\d+
  user eve in desk
  $ tacd lint eve.policy
  line 1 column 1: no rule ends in ' <cr>', with which Cisco IOS ends each line: is that meant?
  line 2 column 8: '^' is a symbol here, and a pattern fits whole lines: is it meant?
  line 2 column 14: '\\d' is the letter d here: is a digit meant, as '[0-9]'?
  line 3 column 6: this user has no login: is that meant?

Exit status:
  0  the policy may stand, and there was nothing to say
  1  the policy is refused, and why was printed
  2  the command line is wrong
  3  memory ran out
  4  the file could not be read, or the output could not be written
  5  the policy may stand, and something was printed",
};

pub(crate) const DIFF_PAGE: Page = Page {
    about: "Prints what users gain and lose by a new policy",
    long_about: "Prints what users gain and lose where a new policy takes the place of an old one.

For each user for whom anything changes it prints the shortest command line that the new policy
permits and the old one denies, and the shortest that the new one denies and the old one permits; of
lines of one length, the first by ASCII. Then it prints what users are given otherwise for services,
a shell's level among it, and then whose secrets were set, changed or cleared, without the secrets.
So nothing is printed for a user exactly if the two policies permit and deny alike every line that he
could ever give, give him the same, and have the same secrets of him. It is what the console of
'tacd serve' answers where NEW takes the place of OLD by a 'reload'. With --edits it prints edits
that make NEW of OLD, which load it into a server that has OLD.",
    after_help: "Examples:
  tacd diff campus.policy campus-next.policy
  tacd diff --edits saved.policy campus-next.policy | tacd console /run/tacd/console

'tacd diff --help' describes what is printed; 'tacd replay --help' the lines of a policy.",
    after_long_help: "'tacd replay --help' describes the lines of a policy.

What is printed, first for the users of NEW in its order, then for those of OLD alone:
  user NAME now permits: LINE
  user NAME now denies: LINE
Then what is given otherwise for services, in the same order, where S is 'shell' or another service:
  user NAME service S now granted
  user NAME service S now refused
  user NAME service S now gives: ARGUMENT
  user NAME service S no longer gives: ARGUMENT
  user NAME service S gives the same in another order
Then what became of the secret that a user logs in or enables with, in the same order. Who isn't in a
policy has none there. Texts are compared as texts and hashes as hashes, and one is never the other:
  user NAME login set  there was none; so it is with 'enable' in place of 'login'
  user NAME login changed
  user NAME login cleared
  same                 where nothing changes for anyone, no secret either

What is printed with --edits, for each 64 edits; nothing where there are none:
  begin
  EDIT ..              as 'tacd serve --help' describes them; none of them is refused
  commit
Where there are several batches, standard error says how many: between two of them the policy is
neither OLD nor NEW. If a batch makes a policy that is too large, only this is printed:
  batch K: refused 11 TooManyStates SUBJECT

What is printed where one of them is refused; OLD is judged first:
  PATH: fault ..       as 'tacd check' prints it

Example:
  $ cat old.policy
  group desk
  permit show .*
  user eve in desk
  $ cat new.policy
  group desk
  deny show run.*
  permit show .*
  permit ping [0-9.]+
  user eve in desk
  $ tacd diff old.policy new.policy
  user eve now permits: ping .
  user eve now denies: show run
  $ tacd diff --edits old.policy new.policy
  begin
  insert group desk 1 deny show run.*
  insert group desk 3 permit ping [0-9.]+
  commit

Exit status:
  0  both policies may stand
  1  one of them is refused, or a batch, and why was printed
  2  the command line is wrong
  3  memory ran out
  4  a file could not be read, or the output could not be written
  5  with --exit-code: something changes for anyone, or with --edits too, there are edits",
};

pub(crate) const OLD_HELP: &str = "The present policy's text, at most 268435456 bytes";

pub(crate) const NEW_HELP: &str = "The text of the policy that is to take its place";

pub(crate) const EDITS_HELP: &str = "Print the lines of the console that make NEW of OLD";

pub(crate) const EXIT_CODE_HELP: &str =
    "End with status 5 where something changes for anyone; with --edits, where there are edits";

pub(crate) const WHY_PAGE: Page = Page {
    about: "Prints which rule decides on a command line",
    long_about: "Prints which rule of a policy decides on a command line of a user, as the console of 'tacd serve'
answers 'why'.

The words of LINE are joined by blanks, as a router joins them. Without USER, questions are read from
standard input, a line 'USER LINE' for each, and each is printed with its answer.",
    after_help: "Examples:
  tacd why campus.policy ben show vlan
  tacd why campus.policy < questions

'tacd why --help' describes what is printed; 'tacd replay --help' the lines of a policy.",
    after_long_help: "'tacd replay --help' describes the lines of a policy.

Answers, where OWNER is 'user NAME' or 'group NAME'; the rules of an OWNER count from 1:
  permitted by OWNER rule N
  denied by OWNER rule N
  denied by default    no rule fits
  unknown user         the policy has no such user

Of standard input, at most 268435456 bytes, leading spaces, empty lines and lines that begin with '#'
are passed over; each other line is printed, and then ': ' and its answer.

What is printed where something is refused; nothing is answered then:
  PATH: fault ..       the policy, as 'tacd check' prints it
  fault BadQuestion    USER is no name, or LINE has a character that isn't printable ASCII
  standard input: fault line L BadQuestion
                       the same of line L of standard input

Example:
  $ tacd why campus.policy ben show vlan
  permitted by group staff rule 4
  $ echo ben reload | tacd why campus.policy
  ben reload: denied by group engineers rule 8

Exit status:
  0  all is answered; with --status, the line is permitted
  1  something is refused, and why was printed; with --status, also where there is no such user
  2  the command line is wrong
  3  memory ran out
  4  an input could not be read, or the output could not be written
  5  with --status: the line is denied",
};

pub(crate) const USER_HELP: &str = "Whose line it is; without it, standard input is read";

pub(crate) const LINE_HELP: &str = "The words of the line; without any, the empty line";

pub(crate) const GIVEN_PAGE: Page = Page {
    about: "Prints what a user is given for a service, and by whom",
    long_about: "Prints what a policy gives to a user for whom a device asks for a service, and who gives it, as the
console of 'tacd serve' answers 'given'.

SERVICE is a NAME or NAME/PROTOCOL, as in a line 'service SERVICE' of a policy. For 'shell' it is
what the empty command line is given, which asks for a shell.",
    after_help: "Example:
  tacd given devices.policy bob junos-exec

'tacd given --help' describes what is printed; 'tacd replay --help' the lines of a policy.",
    after_long_help: "'tacd replay --help' describes the lines of a policy.

The first line that is printed, where OWNER is 'user NAME' or 'group NAME':
  granted by OWNER       OWNER decides on the service, and allows it
  refused by OWNER       OWNER refuses it
  unsupported service    nobody along the chain of USER has a line about it
  unknown user           the policy has no such user
Of 'shell' it is what 'tacd why' prints of the empty line, as 'permitted by OWNER rule N'.

Where the service is granted, a line for each argument that the device is sent, in this order:
  OWNER gives ARGUMENT   the level of a shell is 'priv-lvl=N'

What is printed where something is refused; nothing is answered then:
  PATH: fault ..       the policy, as 'tacd check' prints it
  fault BadQuestion    USER is no name, or SERVICE is no service

Example:
  $ tacd given devices.policy bob shell
  permitted by group netops rule 1
  group netops gives priv-lvl=15
  group netops gives shell:roles*\"network-admin\"

Exit status:
  0  it is answered; with --status, the service is given
  1  something is refused, and why was printed; with --status, also where there is no such user
  2  the command line is wrong
  3  memory ran out
  4  the file could not be read, or the output could not be written
  5  with --status: the service is not given",
};

pub(crate) const GIVEN_USER_HELP: &str = "Who is given it";

pub(crate) const SERVICE_HELP: &str = "The service that a device asks for";

pub(crate) const TEST_PAGE: Page = Page {
    about: "Prints which cases of a table a policy doesn't meet",
    long_about: "Compares a policy with a table of cases, and prints each that isn't so with what is so instead.

A case is a line 'permit USER LINE' or 'deny USER LINE', 'grant USER SERVICE' or 'refuse USER
SERVICE', or 'give USER SERVICE ARGUMENT', where the device is to be sent that argument. A user who
isn't in the policy meets none, so that a misspelt name is seen.",
    after_help: "Example:
  tacd test campus.policy campus.cases

'tacd test --help' describes what is printed; 'tacd replay --help' the lines of a policy.",
    after_long_help: "'tacd replay --help' describes the lines of a policy.

Of CASES leading spaces, empty lines and lines that begin with '#' are passed over.

What is printed, where ANSWER is one of those of 'tacd why', the first line of 'tacd given', or
'not given' where the service is granted without the argument:
  line L: CASE: ANSWER for each case that isn't so, with its line in CASES
  ok                   where all cases are so

What is printed where something is refused; no case is judged then:
  PATH: fault ..       the policy, as 'tacd check' prints it
  PATH: fault line L BadCase
                       line L of CASES is no case

Example:
  $ cat ben.cases
  permit ben show vlan
  deny ben reload
  permit ben configure
  $ tacd test campus.policy ben.cases
  line 3: permit ben configure: denied by default

Exit status:
  0  all cases are so
  1  a case isn't so, or something is refused, and that was printed
  2  the command line is wrong
  3  memory ran out
  4  a file could not be read, or the output could not be written",
};

pub(crate) const CASES_HELP: &str = "The table's text, at most 268435456 bytes";

pub(crate) const DEVICES_PAGE: Page = Page {
    about: "Reads which devices may call, and tells which of them an address is",
    long_about: "Reads a file that says which devices may call, by which addresses and under which keys, and prints
how much it has, and what is remarked on it. Where addresses are given, it prints instead which
device each of them is. With --lint it prints what is wrong in the file or
probably not meant, line by line, and what was meant.

Of the prefixes that an address begins with the longest decides, wherever it stands. No key is ever
printed. 'tacd serve --devices' serves the devices of such a file.",
    after_help: "Examples:
  tacd devices campus.devices
  tacd devices campus.devices 192.0.2.1 2001:db8::1
  tacd devices --lint campus.devices

'tacd devices --help' describes the lines of the file, and what is printed.",
    after_long_help: "Lines of the file, any number of these:
  device NAME          begins a device, or several that share what follows
  at ADDRESS           the device above it has this address; at least one
  at ADDRESS/N         it has all addresses that begin with the first N bits of this one
  key TEXT             the key that it shares with the server, 1 to 128 characters
  old-key TEXT         a key that it had before, and that the server still takes
  tls                  it may come inside TLS, with any certificate that a proxy verified
  tls NAME             it may come inside TLS, with a certificate of this common name
  connections N        how many connections each of its addresses may have at once, 1 to 10000

A device has 'key', 'tls' or both, and each of its lines but 'at' once at most. Empty lines, lines
that begin with '#' and leading spaces are passed over. The NAME of a device is 1 to 32 of the
characters A-Z a-z 0-9 _ - . @. An ADDRESS is an IPv4 or IPv6 address without a scope; one that is
IPv4 written as IPv6, as ::ffff:192.0.2.1, is looked up as IPv4. There may be 4096 devices, and
16384 lines 'at'.

What is printed without any ADDRESS, the others than the first for each line that they are so of.
'tacd serve' says them on standard error as it starts. All these lines count as they stand:
  devices ok: D devices, P prefixes
  line L: the key of line M
                       two devices have one key
  line L: a key of N characters
                       it has fewer than 16
  line L: a key with a blank at an end, which is part of it
  line L: a key in quotes, which are part of it
  line L: a key with '#' after a blank: no comment, but part of it
  line L: a key that begins with 'key =' or '= ', which is part of it
  line L: a key that looks like Cisco's type 7: it is taken as it stands
  line L: a key of one character, alone or repeated
                       the first of these that is so of a key, or of an old one
  line L: an old key beside the 'tls' of line M
                       the device may come inside TLS, and its old key lets it in without
  line L: the common name of line M
                       two devices have one name behind 'tls'

What is printed of each ADDRESS, in their order:
  ADDRESS NAME PREFIX line L
                       the device that it is, and which of its prefixes says so, at line L
  ADDRESS may not call

What is printed where the file is refused; nothing else is printed then:
  devices fault line L FAULT
                       line L is wrong, or the device that begins there
Standard error then names 'tacd devices --lint', which says more.

What is printed with --lint, a line for each; columns count bytes from 1:
  line N column M: TEXT
                       of a file that is refused, what is wrong with line N, of
                       up to 1000 such lines; of another one, what is remarked
                       on, as above

Examples:
  $ tacd devices campus.devices 192.0.2.1 203.0.113.9
  192.0.2.1 core-1 192.0.2.1/32 line 3
  203.0.113.9 may not call
  $ tacd devices --lint broken.devices
  line 7 column 16: a netmask: is '192.0.2.128/25' meant?

Exit status:
  0  the file may stand, and each ADDRESS is a device's; with --lint, there was
     nothing to say
  1  the file is refused, and why was printed
  2  the command line is wrong, or an ADDRESS is none
  3  memory ran out
  4  the file could not be read, or the output could not be written
  5  an ADDRESS may not call; or with --lint, the file may stand, and something
     was printed",
};

pub(crate) const DEVICES_HELP: &str = "The text of the devices, at most 16777216 bytes";

pub(crate) const DEVICES_LINT_HELP: &str =
    "Print what is wrong or probably not meant, by line and column";

pub(crate) const ASKED_HELP: &str = "Tell which device this IPv4 or IPv6 address is";

pub(crate) const REPLAY_PAGE: Page = Page {
    about: "Reads a script on standard input and prints the server's replies",
    long_about: "Reads a script on standard input and prints the server's replies on standard output.

The script gives the key that server and devices share, a policy, and what devices send over their
connections: packets of TACACS+ authentication, authorisation and accounting (RFC 8907), of which
every session asks for a login or a command line, or tells what was done. The whole script, at most
268435456 bytes, is read before anything is printed.",
    after_help: "Example:
  tacd replay < session.script

'tacd replay --help' describes the lines of a script.",
    after_long_help: with_policy_lines!(
        "Lines of a script, in this order:
  key TEXT             line 1: the key, 1 to 128 printable ASCII characters
  policy 2, policy 3   line 2, or the first of a file that has a policy alone: its patterns may
                       count, as '{1,3}', and after 'policy 3' hashes and services may stand; it may
                       be left out
  the policy, any number of these:",
        "  run                  ends the policy
  events, any number of these:
    open N               a device opens connection N, 0 to 65535
    packet N HEX ..      it sends packets: 12 bytes of header, then the body, in the clear
    bytes N HEX          it sends these bytes as they are
    pieces K             from here on, what is sent comes in pieces of K bytes, 1 to 9999
    lost N               connection N is lost
    console LINE         an operator types LINE: an edit or a question, as at 'tacd serve'

",
        "
What is printed:
  reply N HEX          the server sends a packet on connection N, here with its body in the clear
  closed N             the server closes connection N; the number may be opened again
  what a LINE of an operator is answered, which 'tacd serve --help' describes
  fault line L FAULT   line L of the script is wrong, and nothing after it is played
  fault TooManyStates SUBJECT
                       the rules along SUBJECT and its groups are too large together
  fault Memory         memory ran out: this line is printed, and nothing else

Example, in which bob, of the group ops, asks for 'show version':
  key k
  group ops
  permit show .*
  user bob in ops
  run
  open 1
  packet 1 c0020100000000010000003606010101030400030d080f626f6274747930736572766963653d7368656c6c636d643d73686f77636d642d6172673d76657273696f6e

It prints, where the first byte of the body, 01, says that the command is permitted:
  reply 1 c00202000000000100000006010000000000
  closed 1

Exit status:
  0  the whole script was played
  1  the script has a fault, which was printed
  2  the command line is wrong
  3  memory ran out
  4  the script could not be read, the output could not be written, or PATH can't be written"
    ),
};

pub(crate) const REPLAY_LOG_HELP: &str =
    "The file that takes a line of JSON for each request of the script, as of 'serve --log'";

pub(crate) const TIME_HELP: &str = "What each of these lines has as its time, in place of null";

pub(crate) const AFTER_LONG_HELP: &str = "Examples:
  tacd check campus.policy
  tacd lint campus.policy
  tacd diff campus.policy campus-next.policy
  tacd why campus.policy ben show vlan
  tacd given devices.policy bob junos-exec
  tacd test campus.policy campus.cases
  tacd devices campus.devices 192.0.2.1
  tacd import tac_plus.conf
  tacd serve --port 49 --key-file tacd.key campus.policy
  tacd console /run/tacd/console why ben show vlan
  tacd ask --key-file tacd.key login bob < password
  tacd replay < session.script

'tacd COMMAND --help' describes what is read, what is printed, and the exit status.";
