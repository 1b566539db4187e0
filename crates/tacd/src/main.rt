//! `tacd`: a TACACS+ server (RFC 8907), the check of its policy, and the replay of scripts.
#![tactic(auto)]

use std::process::ExitCode;
use tac_program::run;

fn main(rt: HostRuntime) -> ExitCode {
    run(&rt, &rt)
}
