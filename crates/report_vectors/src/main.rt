// Runs the cases of its files, one file after the other, and prints the report of each. A settings file and a capture are
// kept for the cases behind them.
#![tactic(auto)]

use arrayvec::ArrayVec;
use cases::{Case, Cases, print_cut};

// The kinds, which are octets of the case files: a settings file, a capture with its report, every cut of the capture, every cut of the settings, and
// both with zeros behind them.
const SETTINGS: u8 = 0;

const CAPTURE: u8 = 1;

const CUT_CAPTURE: u8 = 2;

const CUT_SETTINGS: u8 = 3;

const STRETCHED: u8 = 4;

// Room for a body of any length.
const LONGEST: usize = 65536;

// More octets than a file may have, so that a case can have too many.
const ROOM: usize = 65600;

// Octets of a case with zeros: two numbers.
const LENGTHS: usize = 8;

// The settings file and the capture that are kept.
#[derive(Drop)]
struct Files {
    settings: ArrayVec<u8, LONGEST>,
    captured: ArrayVec<u8, LONGEST>,
}

fn main(rt: HostRuntime) {
    let mut buffer = io::large_buffer();
    let mut files = Files {
        settings: ArrayVec::new(),
        captured: ArrayVec::new(),
    };
    for part in 0..cases::PARTS {
        // A file that is not there has no case.
        let n = cases::load_part(&rt, part, &mut buffer);
        run(&buffer[..n], &mut files);
    }
}

// Runs the cases of one file, under what is kept from the files before it.
fn run(cases: &[u8], files: &mut Files) {
    for case in (Cases { rest: cases }) {
        keep(files, case);
        print_answer(case, files.settings.as_slice(), files.captured.as_slice());
    }
}

// Keeps the file that a case gives.
fn keep(files: &mut Files, case: Case) {
    match case.kind {
        SETTINGS => cases::keep_instead(&mut files.settings, case.body),
        CAPTURE => cases::keep_instead(&mut files.captured, case.body),
        _ => {}
    }
}

// Prints the reports that a case asks for.
fn print_answer(case: Case, settings: &[u8], captured: &[u8]) {
    match case.kind {
        CAPTURE => print_report(settings, captured),
        CUT_CAPTURE => for_each_cut(captured, |cut: &[u8]| print_report(settings, cut)),
        CUT_SETTINGS => for_each_cut(settings, |cut: &[u8]| print_report(cut, captured)),
        STRETCHED => print_stretched(settings, captured, case.body),
        _ => {}
    }
}

fn print_report(settings: &[u8], captured: &[u8]) {
    report_text::report_text(settings, captured).print();
}

// Calls for the file cut at each length, and at last for the whole file.
fn for_each_cut<F: Fn(&[u8])>(file: &[u8], report: F)
    requires { F.IsAlwaysCallable report }
{
    for length in 0..=file.len() {
        report(&file[..length]);
    }
}

// The report of both with zeros behind them, up to the two lengths that the body gives.
fn print_stretched(settings: &[u8], captured: &[u8], body: &[u8]) {
    if body.len() < LENGTHS {
        print_cut();
        return;
    }
    let mut one = [0u8; ROOM];
    let mut other = [0u8; ROOM];
    cases::keep(&mut one, settings);
    cases::keep(&mut other, captured);
    let one = one.get(..octets::read_u32(body, 0) as usize);
    let other = other.get(..octets::read_u32(body, 4) as usize);
    match (one, other) {
        (Some(settings), Some(captured)) => print_report(settings, captured),
        _ => print_cut(),
    }
}
