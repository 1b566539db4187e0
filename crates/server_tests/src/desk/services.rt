//! What users are given for services, and for a shell, by both desks.

use crate::desk::both::{OPS, converses};
use std::test::Fail;
use tac_tally::RecordLimit;

// The level comes first. A line that isn't empty is given nothing.
#[test]
fn shells(rt: HostRuntime) -> Result<(), Fail> {
    converses(
        &rt,
        OPS,
        RecordLimit::refusing(9),
        "\
< policy 3; group ops; priv 15; service shell shell:roles*\"network-operator\"; \
service shell timeout=60; permit (); permit show .*; user bob in ops; user eve in ops
ok
user bob now permits: 
user eve now permits: 
user bob service shell now gives: priv-lvl=15
user bob service shell now gives: shell:roles*\"network-operator\"
user bob service shell now gives: timeout=60
user eve service shell now gives: priv-lvl=15
user eve service shell now gives: shell:roles*\"network-operator\"
user eve service shell now gives: timeout=60
? run bob 
granted 'priv-lvl=15' 'shell:roles*\"network-operator\"' 'timeout=60'
? run bob show version
permitted
? run bob ping
denied by default
? run zed 
unknown user
> service user bob shell
ok
user bob service shell no longer gives: shell:roles*\"network-operator\"
user bob service shell no longer gives: timeout=60
? run bob 
permitted at 15
? run eve 
granted 'priv-lvl=15' 'shell:roles*\"network-operator\"' 'timeout=60'
> clear service user bob shell
ok
user bob service shell now gives: shell:roles*\"network-operator\"
user bob service shell now gives: timeout=60
> priv user bob 1
ok
user bob service shell now gives: priv-lvl=1
user bob service shell no longer gives: priv-lvl=15
? run bob 
granted 'priv-lvl=1' 'shell:roles*\"network-operator\"' 'timeout=60'
> clear priv group ops
ok
user eve service shell no longer gives: priv-lvl=15
> clear service group ops shell timeout=60
ok
user bob service shell no longer gives: timeout=60
user eve service shell no longer gives: timeout=60
? run eve 
granted 'shell:roles*\"network-operator\"'
> clear service group ops shell
ok
user bob service shell no longer gives: shell:roles*\"network-operator\"
user eve service shell no longer gives: shell:roles*\"network-operator\"
? run eve 
permitted
",
    )
}

// Names and protocols are compared whole, byte by byte.
#[test]
fn other_services(rt: HostRuntime) -> Result<(), Fail> {
    converses(
        &rt,
        OPS,
        RecordLimit::refusing(9),
        "\
< policy 3; group ops; priv 15; service junos-exec local-user-name=ops; \
service PaloAlto/firewall PaloAlto-Admin-Role=superuser; service sshd/unknown; \
service junos-exec allow-commands=show .*; permit show .*; user bob in ops; user eve in ops; \
refuse junos-exec
ok
user bob service junos-exec now granted
user bob service junos-exec now gives: local-user-name=ops
user bob service junos-exec now gives: allow-commands=show .*
user bob service PaloAlto/firewall now granted
user bob service PaloAlto/firewall now gives: PaloAlto-Admin-Role=superuser
user bob service sshd/unknown now granted
user eve service PaloAlto/firewall now granted
user eve service PaloAlto/firewall now gives: PaloAlto-Admin-Role=superuser
user eve service sshd/unknown now granted
? serve bob junos-exec
granted 'local-user-name=ops' 'allow-commands=show .*'
? serve bob PaloAlto firewall
granted 'PaloAlto-Admin-Role=superuser'
? serve bob sshd unknown
granted
? serve eve junos-exec
refused by user eve
? serve eve PaloAlto firewall
granted 'PaloAlto-Admin-Role=superuser'
? serve bob PaloAlto
unserved
? serve bob PaloAlto Firewall
unserved
? serve bob PaloAlto firewall 
unserved
? serve bob PaloAlto/firewall
unserved
? serve bob junos-exec ip
unserved
? serve bob junos
unserved
? serve bob shell x
unserved
? serve zed junos-exec
unserved
? serve ops junos-exec
unserved
? serve b,b junos-exec
unserved
",
    )
}

// The nearest decides, alone, and an edit counts for the next answer.
#[test]
fn the_nearest_decides(rt: HostRuntime) -> Result<(), Fail> {
    converses(
        &rt,
        OPS,
        RecordLimit::refusing(9),
        "\
< policy 3; group all; service junos-exec local-user-name=all; refuse sshd/unknown; \
group ops in all; service junos-exec local-user-name=ops; refuse PaloAlto/firewall; \
permit show .*; user bob in ops; user eve in ops; service junos-exec; \
service PaloAlto/firewall PaloAlto-Admin-Role=superuser
ok
user bob service junos-exec now granted
user bob service junos-exec now gives: local-user-name=ops
user eve service junos-exec now granted
user eve service PaloAlto/firewall now granted
user eve service PaloAlto/firewall now gives: PaloAlto-Admin-Role=superuser
? serve bob junos-exec
granted 'local-user-name=ops'
? serve eve junos-exec
granted
? serve bob PaloAlto firewall
refused by group ops
? serve eve PaloAlto firewall
granted 'PaloAlto-Admin-Role=superuser'
? serve eve sshd unknown
refused by group all
> clear service group ops junos-exec
ok
user bob service junos-exec now gives: local-user-name=all
user bob service junos-exec no longer gives: local-user-name=ops
? serve bob junos-exec
granted 'local-user-name=all'
> refuse user bob junos-exec
ok
user bob service junos-exec now refused
? serve bob junos-exec
refused by user bob
> begin
ok
> clear service user bob junos-exec
kept 1
> service user bob junos-exec local-user-name=bob
kept 2
? serve bob junos-exec
refused by user bob
> commit
ok
user bob service junos-exec now granted
user bob service junos-exec now gives: local-user-name=bob
? serve bob junos-exec
granted 'local-user-name=bob'
> move user eve out
ok
user eve now denies: show 
? serve eve sshd unknown
unserved
> remove user bob
ok
user bob now denies: show 
user bob service junos-exec now refused
? serve bob junos-exec
unserved
",
    )
}
