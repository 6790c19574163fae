//! Typed scripts, and the call that checks a script.
ghost use Rattle.std.specs.Prelude.{◌≡◌};
ghost use Rattle.bds_tree.specs.StmtView.{script_of};
ghost use Rattle.bds_check.specs.Answers.{FitsScript};
ghost use Rattle.bds_check_typing.specs.GivenValues.{FitGlobals, set_by};
ghost use Rattle.bds_check_typing.specs.Proper.{IsProgram};
ghost use Rattle.bds_check_typing.specs.Texts.{AreShortTexts};
ghost use Rattle.bds_check_typing.specs.Typed.{IsTyped, IsTypedWith};
ghost use Rattle.bds_check_typing.specs.WellTypedScripts.{globals_in};

use crate::program::walk_script;
use crate::top_level::declared_globals;
use bds_check_names::Globals;
use bds_check_rules::CheckFault;
use bds_check_typing::Settings;
use bds_tree::Script;
use bds_value::{Listed, Texts};
use std::alloc::Global;
use std::marker::Model;

/// A script with what the words of its call set.
#[derive(Drop)]
pub struct TypedScript {
    pub script: Script,
    pub settings: Settings,
    pub args: Texts,
}

/// A program in which each node has its type and breaks no rule, with what words set: each global that
/// is set gets a value of its type, and texts are within their limit.
#[derive(Drop)]
pub struct Typed {
    whole: TypedScript,
    globals: Globals,
}

impl Model for Typed {
    ghost use Rattle.bds_tree.specs.StmtView.{script_of};
    ghost use Rattle.bds_check.specs.declared.checking.TypedScript.{TypedScript};
    ghost use Rattle.bds_check_typing.specs.GivenValues.{set_by};
    ghost use Rattle.bds_check_typing.specs.Typed.{IsTypedWith};
    ghost use Rattle.bds_check_typing.specs.WellTypedScripts.{globals_in};
    ghost use Rattle.std.specs.Prelude.{◌≡◌};
    ghost use Rattle.bds_check.specs.contracts.checking.TypedScript as code;

    ghost Value = { TypedScript };

    ghost coded = { code.the_row.coded };

    ghost view = { λ t. t.whole };

    ghost invariant = { λ t. IsTypedWith (script_of t.whole.script) (set_by t.whole.settings) t.whole.args
        × (t.globals ≡ globals_in (script_of t.whole.script)) };
}

impl Typed {
    /// The script, with the type of each expression.
    pub fn script(&self) -> &Script
        ensures same { result.now ≡ self.now.script }
        ensures typed { IsTyped (script_of self.now.script) }
    {
        &self.whole.script
    }

    /// The script by itself, which may be checked again.
    pub fn into_script(self) -> Script
        ensures same { result ≡ self.script }
        ensures typed { IsTyped (script_of result) }
    {
        let Typed { whole, .. } = self;
        whole.script
    }

    /// The globals that the top level declares, with their types, `args` first.
    pub fn globals(&self) -> &Globals
        ensures { result.now ≡ globals_in (script_of self.now.script) }
    {
        &self.globals
    }

    /// The values that words give globals, in the order of the words. The last one of a name counts, and has
    /// the type of its global.
    pub fn settings(&self) -> &Settings
        ensures same { result.now ≡ self.now.settings }
        ensures fit { FitGlobals (set_by self.now.settings) (script_of self.now.script).parts }
    {
        &self.whole.settings
    }

    /// The other words.
    pub fn args(&self) -> &Texts
        ensures same { result.now ≡ self.now.args }
        ensures short { AreShortTexts self.now.args }
    {
        &self.whole.args
    }

    /// It is typed with what words set: a law, which does nothing.
    pub fn is_typed(&self)
        ensures { IsTypedWith (script_of self.now.script) (set_by self.now.settings) self.now.args }
    {
        let _whole = &self.whole;
    }

    /// The same script with what words set, in the place of what was set before.
    pub(crate) fn set(self, settings: Settings, args: Texts) -> Typed
        requires { IsTyped (script_of self.script) → IsTypedWith (script_of self.script) (set_by settings) args }
        ensures { result ≡ record { script = self.script; settings = settings; args = args } }
    {
        let Typed { whole, globals } = self;
        Typed {
            whole: whole.set(settings, args),
            globals,
        }
    }
}

impl TypedScript {
    fn set(self, settings: Settings, args: Texts) -> TypedScript
        ensures { result ≡ record { script = self.script; settings = settings; args = args } }
    {
        TypedScript {
            script: self.script,
            settings,
            args,
        }
    }
}

/// The script with its types, exactly where no node breaks a rule; no word sets anything yet. Otherwise
/// `Broken` with the first node of the walk that breaks one, and the least rule that it breaks. It takes a
/// program, in which the parts of each included file stand in the place of the include, and a typed script
/// again, which it gives back (`typed_scripts_are_checked`).
pub fn check(alloc: Global, script: Script) -> Result<Typed, CheckFault>
    requires program { IsProgram (script_of script) }
    ensures { FitsScript result (script_of script) }
{
    let Script {
        at,
        files,
        mut parts,
    } = script;
    walk_script(alloc, at, &mut parts)?;
    let globals = declared_globals(alloc, parts.as_slice())?;
    Ok(Typed {
        whole: TypedScript {
            script: Script { at, files, parts },
            settings: Listed::new(alloc),
            args: Listed::new(alloc),
        },
        globals,
    })
}
