//! The rules that an act breaks.
ghost use Rattle.std.specs.Prelude.{◌≡◌, not, None};
ghost use Rattle.bds_tree.specs.StmtView.{act_form_of, settings_of};
ghost use Rattle.bds_check_rules.specs.declared.rules.Rule.TheVariants as Rule;
ghost use Rattle.bds_check_rules.specs.Pieces.{when};
ghost use Rattle.bds_check_names.specs.Scopes.{is_value};
ghost use Rattle.bds_check_rules.specs.StmtBreaks as breaks;

use crate::breaks::{call_rule, files_rule};
use crate::pieces::sys_rule;
use crate::rules::Rule;
use crate::setting_rules::any_dependency;
use bds_check_names::{Asked, Names, is_value};
use bds_tree::{ActForm, Body, Setting};

fn body_rule(body: &Body, others: Option<Rule>) -> Option<Rule>
    ensures { result ≡ breaks.body_rule body.now others }
{
    if is_empty(body) {
        Some(Rule::NoCommand)
    } else {
        others
    }
}

fn dep_rule(asked: &Asked, options: &[Setting], body: &Body) -> Option<Rule>
    ensures { result ≡ when (not (breaks.any_dependency (settings_of options.now))) Rule.NoDep (breaks.body_rule body.now (when (is_value asked.now) Rule.VoidValue None)) }
{
    if any_dependency(options) {
        let void = if is_value(asked) {
            Some(Rule::VoidValue)
        } else {
            None
        };
        body_rule(body, void)
    } else {
        Some(Rule::NoDep)
    }
}

/// The least rule that an act breaks whose parts have their types.
pub fn act_rule(names: &Names, asked: &Asked, form: &ActForm) -> Option<Rule>
    ensures { result ≡ breaks.act_breaks names.now asked.now (act_form_of form.now) }
{
    match form {
        ActForm::Sys(text) => sys_rule(names, text.as_slice()),
        ActForm::Task(_, body) => body_rule(body, None),
        ActForm::Dep(options, body) => dep_rule(asked, options.as_slice(), body),
        ActForm::Goal(files) => files_rule(&files.ty),
        ActForm::ParCall(name, arguments) => call_rule(names, false, name, arguments.as_slice()),
        ActForm::ParBlock(_) => None,
    }
}

/// There is no command.
fn is_empty(body: &Body) -> bool
    ensures { result ≡ breaks.is_empty_list (breaks.commands_of body.now) }
{
    match body {
        Body::Sys(_) => false,
        Body::Block(commands) => commands.as_slice().is_empty(),
    }
}
