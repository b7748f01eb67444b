// Tests by subject; those of tables of rows stand here, the tables with what they share.

mod calling;
mod calls;
mod commands;
mod files;
mod images;
mod limits;
mod listings;
mod outside;
mod programs;
mod sources;
mod spaces;
mod words;

use crate::tests::calls::all_right;
use std::rt::HostRuntime;

// A test for each table of rows.

#[test]
fn images_that_run(rt: HostRuntime) {
    all_right(&rt, rt.alloc(), files::IMAGES);
}

#[test]
fn inputs(rt: HostRuntime) {
    all_right(&rt, rt.alloc(), files::INPUTS);
}

#[test]
fn loads_in_order(rt: HostRuntime) {
    all_right(&rt, rt.alloc(), files::LOADS);
}

#[test]
fn region_stack_and_steps(rt: HostRuntime) {
    all_right(&rt, rt.alloc(), limits::LIMITS);
}

#[test]
fn long_runs_and_large_sources(rt: HostRuntime) {
    all_right(&rt, rt.alloc(), limits::LARGE);
}

#[test]
fn sources_are_shown(rt: HostRuntime) {
    all_right(&rt, rt.alloc(), listings::LISTINGS);
}

#[test]
fn programs_are_made_from_numbers(rt: HostRuntime) {
    all_right(&rt, rt.alloc(), listings::NUMBERS);
}

#[test]
fn devices_that_fail(rt: HostRuntime) {
    all_right(&rt, rt.alloc(), outside::FAILING);
}

#[test]
fn blocks_of_output(rt: HostRuntime) {
    all_right(&rt, rt.alloc(), outside::BLOCKS);
}

#[test]
fn names_that_the_shelf_has_not(rt: HostRuntime) {
    all_right(&rt, rt.alloc(), outside::NO_NAMES);
}

#[test]
fn literals(rt: HostRuntime) {
    all_right(&rt, rt.alloc(), programs::LITERALS);
}

#[test]
fn casts(rt: HostRuntime) {
    all_right(&rt, rt.alloc(), programs::CASTS);
}

#[test]
fn functions_and_tuples_in_wrappers(rt: HostRuntime) {
    all_right(&rt, rt.alloc(), programs::WRAPPED);
}

#[test]
fn boxes_and_vectors(rt: HostRuntime) {
    all_right(&rt, rt.alloc(), programs::CELLS);
}

#[test]
fn products_and_quotients(rt: HostRuntime) {
    all_right(&rt, rt.alloc(), programs::QUOTIENTS);
}

#[test]
fn what_is_printed(rt: HostRuntime) {
    all_right(&rt, rt.alloc(), programs::PRINTED);
}

#[test]
fn loops_groups_and_closures(rt: HostRuntime) {
    all_right(&rt, rt.alloc(), programs::LOOPS);
}

#[test]
fn calls_through_proxies(rt: HostRuntime) {
    all_right(&rt, rt.alloc(), programs::PROXIED);
}

#[test]
fn refusals_of_the_reader(rt: HostRuntime) {
    all_right(&rt, rt.alloc(), sources::UNREADABLE);
}

#[test]
fn refusals_of_forms_and_types(rt: HostRuntime) {
    all_right(&rt, rt.alloc(), sources::REFUSALS);
}

#[test]
fn first_faults(rt: HostRuntime) {
    all_right(&rt, rt.alloc(), sources::FIRST_FAULTS);
}

#[test]
fn checks(rt: HostRuntime) {
    all_right(&rt, rt.alloc(), sources::CHECKS);
}

#[test]
fn types_of_a_thousand_nodes(rt: HostRuntime) {
    all_right(&rt, rt.alloc(), sources::LARGE_TYPES);
}

#[test]
fn audits(rt: HostRuntime) {
    all_right(&rt, rt.alloc(), sources::AUDITS);
}

#[test]
fn models(rt: HostRuntime) {
    all_right(&rt, rt.alloc(), sources::MODELS);
}

#[test]
fn lines_of_storage(rt: HostRuntime) {
    all_right(&rt, rt.alloc(), spaces::LINES);
}

#[test]
fn reports_without_lines_of_storage(rt: HostRuntime) {
    all_right(&rt, rt.alloc(), spaces::NO_LINES);
}

#[test]
fn casts_do_not_pile_up(rt: HostRuntime) {
    all_right(&rt, rt.alloc(), spaces::LOOPS);
}
