// The program `contact`: plays the contact file on standard input.
#![tactic(auto)]

use std::process::ExitCode;

fn main(rt: HostRuntime) -> ExitCode {
    match contact_file::play(&rt) {
        Ok(()) => ExitCode::SUCCESS,
        Err(wrong) => {
            // Where standard error takes nothing either, the status alone tells that something is wrong.
            let _ = eprintln!(rt; "{wrong}");
            ExitCode::FAILURE
        }
    }
}
