//! A policy that is written, and what is told meanwhile.

use crate::importing::Import;
use crate::remark::{Remark, What};
use basics::is_symbol;
use pol_names::Verdict;
use posix_expression::Text;
use std::alloc::Global;
use tac_plus_file::FileFault;

/// How many bytes of a word are shown.
const SHOWN: usize = 60;

/// How many rules a subject has at most, but for one that denies all that isn't said.
const MOST_RULES: usize = 255;

/// A policy that is written, one subject after another. Where memory runs out, its text lacks
/// something.
pub(crate) struct Draft {
    pub(crate) alloc: Global,
    /// The lines of its subjects.
    pub(crate) policy: Text,
    /// Whether only version 3 has them.
    pub(crate) is_third: bool,
    /// What the first groups of the file are called, of which a policy has no more.
    pub(crate) called: Vec<Text>,
    /// How many more users there may be.
    pub(crate) room: usize,
    remarks: Vec<Remark>,
    /// Whether nothing is told, since it was told before.
    pub(crate) is_quiet: bool,
    /// How many lines about services the present subject has, and how many rules.
    pub(crate) lines: usize,
    rules: usize,
    /// Whether all else is denied, since more can't be said, and what is told of that.
    pub(crate) is_full: bool,
    pub(crate) full: What,
}

// By hand, so that a proof of an owner has one call at each exit, not a drop of each field.
impl Drop for Draft {
    fn drop(self) {
        let Draft {
            alloc: _,
            policy: _,
            is_third: _,
            called: _,
            room: _,
            remarks: _,
            is_quiet: _,
            lines: _,
            rules: _,
            is_full: _,
            full: _,
        } = self;
    }
}

/// Adds a word, of which only so much is shown.
fn show(text: &mut Text, word: &[u8]) {
    'bytes: for byte in word.iter().take(SHOWN) {
        text.push(if is_symbol(*byte) { *byte } else { b'?' });
    }
    if word.len() > SHOWN {
        text.add(b"..");
    }
}

/// Adds a line of these parts.
pub(crate) fn add_line(text: &mut Text, parts: &[&[u8]]) {
    'parts: for part in parts {
        text.add(part);
    }
    text.push(b'\n');
}

impl Draft {
    ghost use Rattle.std.specs.Prelude.{◌≡◌, ◌-◌, false, ◌∷◌, []};
    ghost use Rattle.posix_expression.specs.Gathered.{gathered, lacks};
    ghost use Rattle.tac_plus_import.specs.Drafts.{Adds, Ends, Keeps, Tells};
    ghost use Rattle.tac_plus_import.specs.Joining.{of_verdict};

    pub(crate) fn new(alloc: Global) -> Draft {
        Draft {
            alloc,
            policy: Text::new(alloc),
            is_third: false,
            called: Vec::new(alloc),
            room: 0,
            remarks: Vec::new(alloc),
            is_quiet: false,
            lines: 0,
            rules: 0,
            is_full: false,
            full: What::TOO_MANY_RULES,
        }
    }

    /// Begins with a subject of which nothing was written.
    pub(crate) fn begin(&mut self) {
        self.lines = 0;
        self.rules = 0;
        self.is_full = false;
    }

    /// The bytes of a text. If it lacks something, the policy does.
    pub(crate) fn bytes_of(&mut self, text: Text) -> Vec<u8>
        ensures keeps { Keeps self.old self.new }
        ensures remarks { self.new.remarks ≡ self.old.remarks }
    {
        if text.is_cut() {
            self.policy.cut();
        }
        text.into_bytes()
    }

    /// Tells of a line: a word, and what comes before and after it.
    pub(crate) fn remark(
        &mut self,
        line: usize,
        before: &str,
        word: &[u8],
        after: &[&str],
        is_left_out: bool,
    )
        ensures keeps { Keeps self.old self.new }
        ensures tells { Tells self.old self.new }
    {
        if self.is_quiet {
            return;
        }
        let mut text = Text::new(self.alloc);
        text.add(before.as_bytes());
        text.push(b'\'');
        show(&mut text, word);
        text.push(b'\'');
        'parts: for part in after {
            text.add(part.as_bytes());
        }
        let text = self.bytes_of(text);
        if self
            .remarks
            .push(Remark::new(line, is_left_out, text))
            .is_err()
        {
            self.policy.cut();
        }
    }

    /// Tells this of a word.
    pub(crate) fn tell(&mut self, line: usize, what: What, word: &[u8]) {
        match what {
            What::LeftOut(text) => self.remark(line, "", word, &[text], true),
            What::Decided(text) => self.remark(line, "", word, &[text], false),
        }
    }

    /// Denies all that was not decided so far, since more can't be said.
    pub(crate) fn deny_rest(&mut self, told: What)
        ensures remarks { self.new.remarks ≡ self.old.remarks }
        ensures ends { lacks self.new.policy ≡ false → Ends self.old self.new }
    {
        if !self.is_full {
            self.is_full = true;
            self.full = told;
            self.policy.add(b"deny .*\n");
        }
    }

    /// How many more rules the subject may have.
    pub(crate) fn room_for_rules(&self) -> usize
        ensures { result ≡ 255 - self.now.rules }
    {
        MOST_RULES.saturating_sub(self.rules)
    }

    /// One more rule. Where a subject may have no more, everything else is denied.
    pub(crate) fn push_rule(&mut self, verdict: Verdict, pattern: &[u8])
        ensures remarks { self.new.remarks ≡ self.old.remarks }
        ensures adds { lacks self.new.policy ≡ false
            → Adds self.old (of_verdict verdict pattern.now ∷ []) self.new }
    {
        if self.is_full {
            return;
        }
        if self.rules >= MOST_RULES {
            return self.deny_rest(What::TOO_MANY_RULES);
        }
        self.rules += 1;
        self.policy.add(verdict.keyword().as_bytes());
        self.policy.add(pattern);
        self.policy.push(b'\n');
    }

    /// The policy, in the least version that has all of it, and what was told, by lines; with what is
    /// written beside it.
    pub(crate) fn finish(
        self,
        key: Option<Vec<u8>>,
        devices: Option<Vec<u8>>,
    ) -> Result<Import, FileFault> {
        let Draft {
            alloc,
            policy: lines,
            is_third,
            called: _,
            room: _,
            remarks,
            is_quiet: _,
            lines: _,
            rules: _,
            is_full: _,
            full: _,
        } = self;
        let mut policy = Text::new(alloc);
        policy.add(if is_third {
            b"policy 3\n"
        } else {
            b"policy 2\n"
        });
        policy.add_text(&lines);
        let mut remarks = remarks;
        if remarks.sort_by_key(|remark| remark.line).is_err() || policy.is_cut() {
            return Err(FileFault::Memory);
        }
        Ok(Import {
            policy: policy.into_bytes(),
            key,
            devices,
            remarks,
        })
    }
}
