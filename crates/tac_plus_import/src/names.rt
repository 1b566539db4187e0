//! What groups and devices are called.

use crate::draft::Draft;
use pol_names::{Kind, Name};
use posix_expression::Text;
use std::alloc::Global;
use tac_plus_file::{Configuration, Subject};

/// How many users and groups a policy has at most.
pub(crate) const MOST_IN_POLICY: usize = 1024;

/// Whether a policy and a devices' file may have the name.
pub(crate) fn is_name(text: &[u8]) -> bool {
    Name::read(text).is_some()
}

/// Names made of lines: `line-7`, `line-7-2`, and so on. Lines come in their order.
#[derive(Drop)]
pub(crate) struct LineNames {
    line: usize,
    // how many names were made of this line
    count: usize,
}

impl LineNames {
    pub(crate) fn new() -> LineNames {
        LineNames { line: 0, count: 0 }
    }

    /// A name that was not made before.
    pub(crate) fn next(&mut self, alloc: Global, line: usize) -> Text {
        if self.line != line {
            self.line = line;
            self.count = 0;
        }
        self.count = self.count.saturating_add(1);
        let mut name = Text::new(alloc);
        name.add(b"line-");
        name.add_number(line);
        if self.count > 1 {
            name.push(b'-');
            name.add_number(self.count);
        }
        name
    }
}

// A name that no group of the file has, made of this line.
fn free_name(alloc: Global, read: &Configuration, made: &mut LineNames, line: usize) -> Text {
    'names: for _ in 0..read.groups.len() {
        let name = made.next(alloc, line);
        if !read.groups.contains_key(name.as_slice()) {
            return name;
        }
    }
    made.next(alloc, line)
}

impl Draft {
    /// Settles what the groups of a file are called, as far as the policy has them: each by its line
    /// where a policy has no such name. All that is left of the policy is for users.
    pub(crate) fn call_groups(&mut self, read: &Configuration) {
        let mut made = LineNames::new();
        'groups: for group in &read.subjects {
            if group.kind == Kind::User || self.called.len() >= MOST_IN_POLICY {
                continue;
            }
            let mut name = Text::new(self.alloc);
            name.add(group.name.as_slice());
            if !is_name(name.as_slice()) {
                name = free_name(self.alloc, read, &mut made, group.line);
            }
            if self.called.push(name).is_err() {
                self.policy.cut();
            }
        }
        self.room = MOST_IN_POLICY.saturating_sub(self.called.len());
    }

    /// Writes what a subject is called.
    pub(crate) fn write_name(&mut self, subject: &Subject) {
        match self.called.get(subject.number) {
            Some(called) if subject.kind == Kind::Group => self.policy.add_text(called),
            _ => self.policy.add(subject.name.as_slice()),
        }
    }
}
