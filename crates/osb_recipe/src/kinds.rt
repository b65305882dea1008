ghost use Rattle.std.specs.Prelude.{◌≡◌, ◌≢◌, Ok, Err};
ghost use Rattle.serde_json.specs.View.{view};
ghost use Rattle.osb_stages.specs.Readers.{IsObject};
ghost use Rattle.osb_recipe.specs.Kinds.{type_text, kind_of, effect};

use osb_accounts::{groups, users};
use osb_files::{chmod, chown, copy, error, mkdir, noop, symlink};
use osb_system::{hostname, keymap, locale, machine_id, timezone};
use osb_tree::{Inputs, OptionFault, StageFault, Tree};
use serde_json::Value;
use std::alloc::Global;

/// A stage: what it is, with its options.
#[derive(Debug, Drop)]
pub enum StageKind {
    /// Does nothing.
    Noop(noop::Options),
    /// Fails as it is asked to.
    Error(error::Options),
    /// Makes directories.
    Mkdir(mkdir::Options),
    /// Copies files and trees from inputs.
    Copy(copy::Options),
    /// Makes links.
    Symlink(symlink::Options),
    /// Gives modes.
    Chmod(chmod::Options),
    /// Gives owners.
    Chown(chown::Options),
    /// Adds groups.
    Groups(groups::Options),
    /// Adds and changes users.
    Users(users::Options),
    /// Names the system.
    Hostname(hostname::Options),
    /// Sets the language.
    Locale(locale::Options),
    /// Sets the time zone.
    Timezone(timezone::Options),
    /// Sets the console's keys.
    Keymap(keymap::Options),
    /// Says whether the system boots for the first time.
    MachineId(machine_id::Options),
}

/// Why a type and options are no stage.
#[derive(Debug, Drop)]
pub enum KindFault {
    /// 1: no stage has this type.
    UnknownStage,
    /// 2: the stage refuses its options.
    Options(OptionFault),
    NoMemory,
}

impl StageKind {
    /// The stage of a type's name, as `org.osbuild.mkdir`, with its options.
    pub fn read(alloc: Global, stage: &str, options: &Value) -> Result<StageKind, KindFault>
        requires { IsObject (view options.now) }
        ensures kind { result ≢ Err KindFault.NoMemory → result ≡ kind_of stage.now (view options.now) }
    {
        match stage {
            "org.osbuild.noop" => noop::read_options(alloc, options)
                .map(StageKind::Noop)
                .map_err(options_fault),
            "org.osbuild.error" => error::read_options(alloc, options)
                .map(StageKind::Error)
                .map_err(options_fault),
            "org.osbuild.mkdir" => mkdir::read_options(alloc, options)
                .map(StageKind::Mkdir)
                .map_err(options_fault),
            "org.osbuild.copy" => copy::read_options(alloc, options)
                .map(StageKind::Copy)
                .map_err(options_fault),
            "org.osbuild.symlink" => symlink::read_options(alloc, options)
                .map(StageKind::Symlink)
                .map_err(options_fault),
            "org.osbuild.chmod" => chmod::read_options(alloc, options)
                .map(StageKind::Chmod)
                .map_err(options_fault),
            "org.osbuild.chown" => chown::read_options(alloc, options)
                .map(StageKind::Chown)
                .map_err(options_fault),
            "org.osbuild.groups" => groups::read_options(alloc, options)
                .map(StageKind::Groups)
                .map_err(options_fault),
            "org.osbuild.users" => users::read_options(alloc, options)
                .map(StageKind::Users)
                .map_err(options_fault),
            "org.osbuild.hostname" => hostname::read_options(alloc, options)
                .map(StageKind::Hostname)
                .map_err(options_fault),
            "org.osbuild.locale" => locale::read_options(alloc, options)
                .map(StageKind::Locale)
                .map_err(options_fault),
            "org.osbuild.timezone" => timezone::read_options(alloc, options)
                .map(StageKind::Timezone)
                .map_err(options_fault),
            "org.osbuild.keymap" => keymap::read_options(alloc, options)
                .map(StageKind::Keymap)
                .map_err(options_fault),
            "org.osbuild.machine-id" => machine_id::read_options(alloc, options)
                .map(StageKind::MachineId)
                .map_err(options_fault),
            _ => Err(KindFault::UnknownStage),
        }
    }

    /// The name of its type.
    pub fn type_text(&self) -> &'static str
        ensures text { result.now ≡ type_text self.now }
    {
        match self {
            StageKind::Noop(_) => "org.osbuild.noop",
            StageKind::Error(_) => "org.osbuild.error",
            StageKind::Mkdir(_) => "org.osbuild.mkdir",
            StageKind::Copy(_) => "org.osbuild.copy",
            StageKind::Symlink(_) => "org.osbuild.symlink",
            StageKind::Chmod(_) => "org.osbuild.chmod",
            StageKind::Chown(_) => "org.osbuild.chown",
            StageKind::Groups(_) => "org.osbuild.groups",
            StageKind::Users(_) => "org.osbuild.users",
            StageKind::Hostname(_) => "org.osbuild.hostname",
            StageKind::Locale(_) => "org.osbuild.locale",
            StageKind::Timezone(_) => "org.osbuild.timezone",
            StageKind::Keymap(_) => "org.osbuild.keymap",
            StageKind::MachineId(_) => "org.osbuild.machine-id",
        }
    }

    /// What the stage does to a tree. After a fault the tree is gone.
    pub fn apply(&self, alloc: Global, tree: Tree, inputs: &Inputs) -> Result<Tree, StageFault>
        ensures effect { result ≢ Err StageFault.NoMemory → result ≡ effect self.now inputs.now tree }
    {
        match self {
            StageKind::Noop(options) => noop::apply(alloc, options, tree, inputs),
            StageKind::Error(options) => error::apply(alloc, options, tree, inputs),
            StageKind::Mkdir(options) => mkdir::apply(alloc, options, tree, inputs),
            StageKind::Copy(options) => copy::apply(alloc, options, tree, inputs),
            StageKind::Symlink(options) => symlink::apply(alloc, options, tree, inputs),
            StageKind::Chmod(options) => chmod::apply(alloc, options, tree, inputs),
            StageKind::Chown(options) => chown::apply(alloc, options, tree, inputs),
            StageKind::Groups(options) => groups::apply(alloc, options, tree, inputs),
            StageKind::Users(options) => users::apply(alloc, options, tree, inputs),
            StageKind::Hostname(options) => hostname::apply(alloc, options, tree, inputs),
            StageKind::Locale(options) => locale::apply(alloc, options, tree, inputs),
            StageKind::Timezone(options) => timezone::apply(alloc, options, tree, inputs),
            StageKind::Keymap(options) => keymap::apply(alloc, options, tree, inputs),
            StageKind::MachineId(options) => machine_id::apply(alloc, options, tree, inputs),
        }
    }
}

/// The fault of a stage whose options are refused.
fn options_fault(fault: OptionFault) -> KindFault
    ensures memory { fault ≡ OptionFault.NoMemory → result ≡ KindFault.NoMemory }
    ensures fault { fault ≢ OptionFault.NoMemory → result ≡ KindFault.Options fault }
{
    match fault {
        OptionFault::NoMemory => KindFault::NoMemory,
        fault => KindFault::Options(fault),
    }
}
