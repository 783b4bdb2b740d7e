// Scripts whose code is known from elsewhere: how many words it has, and where each function enters.
#![tactic(auto)]

fn main(rt: HostRuntime) -> anyhow::Result<()> {
    contact_file::play(&rt)
}
