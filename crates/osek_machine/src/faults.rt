// The errors of services that need no more than the open sections or the held resources.
ghost use Rattle.std.specs.Prelude.{◌≡◌, not, length, nat_le, ◌||◌};
ghost use Rattle.osek_machine.specs.Faults.{section_fault_of};
ghost use Rattle.osek_machine.specs.Held.{held_by};
ghost use Rattle.step_ir.specs.Numbers.{is_empty};
ghost use Rattle.step_ir.specs.Services.{fault_if, innermost, is_all_suspended, is_disabled, is_os_suspended, last_taken};

use crate::held::{Holding, last_of};
use step_ir::event::{Failure, Section, Service};

/// The failure where the test holds, and else the rest.
pub fn fault_if(test: bool, failure: Failure, rest: Option<Failure>) -> Option<Failure>
    ensures { result ≡ fault_if test failure rest }
{
    if test { Some(failure) } else { rest }
}

pub fn fault(number: u8) -> Failure
    ensures { result ≡ record { number = number; code = 0 } }
{
    Failure { number, code: 0 }
}

/// The failure of a service that answers this code.
pub fn status(code: u8) -> Failure
    ensures { result ≡ record { number = 2; code = code } }
{
    Failure { number: 2, code }
}

pub fn is_in_section(sections: &[Section]) -> bool
    ensures { result ≡ not (is_empty sections.now) }
{
    sections.len() != 0
}

fn is_disabled(sections: &[Section]) -> bool
    ensures { result ≡ innermost is_disabled sections.now }
{
    sections.len() != 0 && sections[0] == Section::Disabled
}

fn is_all_suspended(sections: &[Section]) -> bool
    ensures { result ≡ innermost is_all_suspended sections.now }
{
    sections.len() != 0 && sections[0] == Section::AllSuspended
}

fn is_os_suspended(sections: &[Section]) -> bool
    ensures { result ≡ innermost is_os_suspended sections.now }
{
    sections.len() != 0 && sections[0] == Section::OsSuspended
}

fn cannot_suspend(sections: &[Section]) -> bool
    ensures { result ≡ innermost is_disabled sections.now || nat_le 8 (length sections.now) }
{
    is_disabled(sections) || 8 <= sections.len()
}

/// The failure of a service that comes of the open sections.
pub fn section_fault(sections: &[Section], service: Service) -> Option<Failure>
    ensures { result ≡ section_fault_of sections.now service }
{
    let wrong = match service {
        Service::EnableAll => !is_disabled(sections),
        Service::SuspendAll => cannot_suspend(sections),
        Service::ResumeAll => !is_all_suspended(sections),
        Service::SuspendOs => cannot_suspend(sections),
        Service::ResumeOs => !is_os_suspended(sections),
        _ => is_in_section(sections),
    };
    fault_if(wrong, fault(8), None)
}

/// Whether an entity took this resource last.
pub fn is_last(held: &[Holding], e: u8, resource: u8) -> bool
    ensures { result ≡ last_taken resource (held_by held.now e) }
{
    match last_of(held, e) {
        None => false,
        Some(last) => last == resource,
    }
}

pub fn holds_nothing(held: &[Holding], e: u8) -> bool
    ensures { result ≡ is_empty (held_by held.now e) }
{
    match last_of(held, e) {
        None => true,
        Some(_) => false,
    }
}
