//! Sizes of policies of many rules, and of long ones.

use crate::automaton::policies::has_sizes;
use std::alloc::{AllocError, Global};
use std::fmt::Write;
use std::test::Fail;

// Adds a line for each of 256 rules: the first text, the rule's number and its words.
fn push_rules(text: &mut String, start: &str, level: u32) -> Result<(), AllocError> {
    for rule in 0..256 {
        writeln!(text, "{start} {level}{rule:02x}")?;
    }
    Ok(())
}

// A user in the last of seven groups, each in the one before, each with as many rules as there may
// be. A rule holds one word, which no other does.
fn long_chain(alloc: Global) -> Result<String, AllocError> {
    let mut text = String::from_str(alloc, "group g0\n")?;
    push_rules(&mut text, "deny", 0)?;
    for level in 1..7 {
        writeln!(text, "group g{level} in g{}", level - 1)?;
        push_rules(&mut text, "permit", level)?;
    }
    text.push_str("user u in g6\n")?;
    push_rules(&mut text, "permit", 7)?;
    Ok(text)
}

// A state for each beginning of a word, and a dead one.
#[test]
fn as_many_rules_as_there_may_be(rt: HostRuntime) -> Result<(), Fail> {
    let policy = long_chain(rt.alloc())?;
    has_sizes(&rt, policy.as_str(), "user u has 2186")
}

// A hundred rules of the longest words, which differ in their last two symbols.
fn long_words(alloc: Global) -> Result<String, AllocError> {
    let stem = "a".repeat(alloc, 198)?;
    let mut text = String::from_str(alloc, "user u\n")?;
    for word in 0..100 {
        writeln!(text, "permit {stem}{word:02}")?;
    }
    Ok(text)
}

#[test]
fn long_words_that_differ_at_their_ends(rt: HostRuntime) -> Result<(), Fail> {
    let policy = long_words(rt.alloc())?;
    has_sizes(&rt, policy.as_str(), "user u has 310")
}

/// Words that a line may have anywhere.
const WORDS: &str = "vlan arp route bgp ospf mac lldp cdp ntp snmp clock users log vrf acl qos \
                     isis mpls bfd vrrp stp dhcp dns ssh tacacs license";

// A group with a rule for each of the 26 words, and a user in it.
fn searches(alloc: Global) -> Result<String, AllocError> {
    let mut text = String::from_str(alloc, "group net\n")?;
    for word in WORDS.split(' ') {
        writeln!(text, "permit show .*{word}.*")?;
    }
    text.push_str("user u in net\n")?;
    Ok(text)
}

#[test]
fn many_rules_that_search_anywhere(rt: HostRuntime) -> Result<(), Fail> {
    let policy = searches(rt.alloc())?;
    has_sizes(
        &rt,
        policy.as_str(),
        "
        group net has 871
        insert user u 1 deny show .*secret.*
        user u has 990
        insert group net 1 permit show .*
        group net has 7
        user u has 13
        ",
    )
}
