//! Reports on failing devices.
use crate::report::support::{ONE, image, keys};
use crate::support::{ALL, Failing, FailingImages, equal};
use check_report::{
    Asked, Files, Form, Images, Inspection, ReportFault, Request, inspect_change, inspect_image,
};
use std::process::Abort;
use std::random::RandomSource;

pub fn request<'a>(kept: &'a [&'a [u8]], form: Form) -> Request<'a> {
    Request {
        areas: &[],
        needs: &[],
        kept,
        keeps_preserved: false,
        is_strict: false,
        asked: Asked {
            is_verbose: false,
            needs_hashes: false,
            lists: false,
        },
        form,
        files: Files {
            image: "new.rom",
            old: None,
        },
    }
}

fn of_image(
    rt: &(impl Abort + AllocGlobal + RandomSource),
    paged: &mut Failing,
) -> Result<Inspection, ReportFault> {
    inspect_image(rt.alloc(), keys(rt), paged, request(&[], Form::Json))
}

fn of_change(
    rt: &(impl Abort + AllocGlobal + RandomSource),
    images: &mut FailingImages,
) -> Result<Inspection, ReportFault> {
    inspect_change(rt.alloc(), keys(rt), images, request(&[b"A"], Form::Text))
}

fn is_refused(rt: &impl Abort, answer: Result<Inspection, ReportFault>, fault: ReportFault) {
    equal(rt, &answer.err(), &Some(fault));
}

#[test]
fn a_report_on_a_device_that_refuses_a_read(rt: HostRuntime) {
    let mut paged = image(&rt, b"", 0);
    is_refused(&rt, of_image(&rt, &mut paged), ReportFault::NewDevice);
    drop(paged);
}

fn refuses_change(
    rt: &(impl Abort + AllocGlobal + RandomSource),
    old_calls: u64,
    new_calls: u64,
    fault: ReportFault,
) {
    let mut images = Images {
        old_image: image(rt, b"", old_calls),
        new_image: image(rt, b"", new_calls),
    };
    is_refused(rt, of_change(rt, &mut images), fault);
    drop(images);
}

#[test]
fn devices_that_refuse_a_read(rt: HostRuntime) {
    refuses_change(&rt, 0, ALL, ReportFault::OldDevice);
    refuses_change(&rt, ALL, 0, ReportFault::NewDevice);
}

// ---- a failure at each read

/// Returns true if the reads of both images suffice.
fn ends(
    rt: &(impl Abort + AllocGlobal + RandomSource),
    old_calls: u64,
    new_calls: u64,
    fault: ReportFault,
) -> bool {
    let mut images = Images {
        old_image: image(rt, &ONE, old_calls),
        new_image: image(rt, &ONE, new_calls),
    };
    let fault_of_change = of_change(rt, &mut images).err();
    drop(images);
    equal(rt, &fault_of_change.unwrap_or(fault), &fault);
    fault_of_change.is_none()
}

/// Returns the number of reads of the old image that suffice.
fn old_reads(rt: &(impl Abort + AllocGlobal + RandomSource)) -> u64 {
    for calls in 0..100 {
        if ends(rt, calls, ALL, ReportFault::OldDevice) {
            return calls;
        }
    }
    100
}

/// Returns the number of reads of the new image that suffice.
fn new_reads(rt: &(impl Abort + AllocGlobal + RandomSource)) -> u64 {
    for calls in 0..100 {
        if ends(rt, ALL, calls, ReportFault::NewDevice) {
            return calls;
        }
    }
    100
}

/// Returns the number of reads that suffice for a check of one image.
fn reads(rt: &(impl Abort + AllocGlobal + RandomSource)) -> u64 {
    for calls in 0..100 {
        let mut paged = image(rt, &ONE, calls);
        let fault = of_image(rt, &mut paged).err();
        drop(paged);
        if fault.is_none() {
            return calls;
        }
        equal(rt, &fault, &Some(ReportFault::NewDevice));
    }
    100
}

#[test]
fn a_report_on_a_device_that_fails_at_each_read(rt: HostRuntime) {
    equal(&rt, &reads(&rt), &7);
    // The map, the anchor and the structures of the old image are read, and then what is compared.
    equal(&rt, &old_reads(&rt), &7);
    equal(&rt, &new_reads(&rt), &12);
}
