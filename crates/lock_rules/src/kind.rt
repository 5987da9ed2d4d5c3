// The command that a process began as.
ghost use Rattle.std.specs.Prelude.{◌≡◌, bytes_eq};
ghost use Rattle.dir_model.specs.Pods.{pod_text};
ghost use Rattle.dir_rules.specs.Standing.{intends, draws_by, is_maker, is_remover, is_prepare, is_run, is_run_prepared, is_image_rm, is_image_remover, is_gc};
ghost use Rattle.dir_rules.specs.LockRules.{may_exclude_area};
ghost use Rattle.dir_rules.specs.Rules.{is_import};

use dir_model::{Area, Intent, Kind, Name};

fn is_maker(kind: Kind) -> bool
    ensures { result ≡ is_maker kind }
{
    matches!(kind, Kind::Prepare | Kind::Run)
}

fn is_remover(kind: Kind) -> bool
    ensures { result ≡ is_remover kind }
{
    matches!(kind, Kind::Rm | Kind::Gc)
}

fn is_prepare(kind: Kind) -> bool
    ensures { result ≡ is_prepare kind }
{
    matches!(kind, Kind::Prepare)
}

fn is_run(kind: Kind) -> bool
    ensures { result ≡ is_run kind }
{
    matches!(kind, Kind::Run)
}

fn is_run_prepared(kind: Kind) -> bool
    ensures { result ≡ is_run_prepared kind }
{
    matches!(kind, Kind::RunPrepared)
}

fn is_image_rm(kind: Kind) -> bool
    ensures { result ≡ is_image_rm kind }
{
    matches!(kind, Kind::ImageRm)
}

fn is_image_remover(kind: Kind) -> bool
    ensures { result ≡ is_image_remover kind }
{
    matches!(kind, Kind::ImageRm | Kind::ImageGc)
}

fn is_gc(kind: Kind) -> bool
    ensures { result ≡ is_gc kind }
{
    matches!(kind, Kind::Gc)
}

fn is_import(kind: Kind) -> bool
    ensures { result ≡ is_import kind }
{
    matches!(kind, Kind::ImageImport)
}

fn may_hold_gate(kind: Kind, area: Area) -> bool
    ensures { result ≡ may_exclude_area kind area }
{
    match area {
        Area::Embryo => is_gc(kind),
        Area::Images => is_image_rm(kind),
        Area::Incoming => is_image_remover(kind),
        Area::Removed => is_image_remover(kind),
        _ => false,
    }
}

/// Whether a process that began so may hold this area's lock exclusively.
pub fn may_close_area(intent: &Option<Intent>, area: Area) -> bool
    ensures { result ≡ intends (λ i. may_exclude_area i.kind area) intent.now }
{
    match intent {
        None => false,
        Some(intent) => may_hold_gate(intent.kind, area),
    }
}

/// Whether the pod is the one that the intent would make.
pub fn draws(name: &Name, intent: &Option<Intent>) -> bool
    ensures { result ≡ draws_by name.now intent.now }
{
    match intent {
        None => false,
        Some(intent) => intent.draw.name() == *name,
    }
}

/// Whether the process makes pods.
pub fn began_as_maker(intent: &Option<Intent>) -> bool
    ensures { result ≡ intends (λ i. is_maker i.kind) intent.now }
{
    match intent {
        None => false,
        Some(intent) => is_maker(intent.kind),
    }
}

/// Whether the process removes pods.
pub fn began_as_remover(intent: &Option<Intent>) -> bool
    ensures { result ≡ intends (λ i. is_remover i.kind) intent.now }
{
    match intent {
        None => false,
        Some(intent) => is_remover(intent.kind),
    }
}

/// Whether the process prepares a pod.
pub fn began_as_prepare(intent: &Option<Intent>) -> bool
    ensures { result ≡ intends (λ i. is_prepare i.kind) intent.now }
{
    match intent {
        None => false,
        Some(intent) => is_prepare(intent.kind),
    }
}

/// Whether the process makes a pod and runs it.
pub fn began_as_run(intent: &Option<Intent>) -> bool
    ensures { result ≡ intends (λ i. is_run i.kind) intent.now }
{
    match intent {
        None => false,
        Some(intent) => is_run(intent.kind),
    }
}

/// Whether the process runs a pod that was prepared.
pub fn began_as_run_prepared(intent: &Option<Intent>) -> bool
    ensures { result ≡ intends (λ i. is_run_prepared i.kind) intent.now }
{
    match intent {
        None => false,
        Some(intent) => is_run_prepared(intent.kind),
    }
}

/// Whether the process sweeps.
pub fn began_as_gc(intent: &Option<Intent>) -> bool
    ensures { result ≡ intends (λ i. is_gc i.kind) intent.now }
{
    match intent {
        None => false,
        Some(intent) => is_gc(intent.kind),
    }
}

/// Whether the process makes images.
pub fn began_as_import(intent: &Option<Intent>) -> bool
    ensures { result ≡ intends (λ i. is_import i.kind) intent.now }
{
    match intent {
        None => false,
        Some(intent) => is_import(intent.kind),
    }
}
