// The examples that the parts are held to: a contact file with cases for the machine, and tests.
#![tactic(auto)]

#[cfg(test)]
mod tests;

fn main(rt: HostRuntime) -> anyhow::Result<()> {
    contact_file::play(&rt)
}
