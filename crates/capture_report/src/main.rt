// Reads the files `settings` and `capture`, and prints how many packets and captured octets of the capture go to each
// queue under those settings, or `refused` and a number.
#![tactic(auto)]

// One octet more than the longest file, to tell one that is too long.
const ROOM: usize = report::MAX_FILE + 1;

fn main(rt: HostRuntime) {
    let mut settings = [0u8; ROOM];
    let mut captured = [0u8; ROOM];
    let n = files::read(&rt, b"settings", &mut settings);
    let k = files::read(&rt, b"capture", &mut captured);
    report_text::report_text(&settings[..n], &captured[..k]).print();
}
