//! Laws of forms, each as the contract of a function that does nothing.

ghost use Rattle.rep_forms.specs.Told.{AreTold, RunsAreTold};

use crate::form::Form;

/// The spelling of a value tells the value and where it ends: none begins that of another.
pub fn spellings_are_told<T: Form>()
    ensures { AreTold T.form }
{}

/// So do the spellings of as many values, one after another.
pub fn runs_are_told<T: Form>()
    ensures { RunsAreTold T.form }
{}
