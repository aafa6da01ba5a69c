//! The form of a study's text.
ghost use Rattle.std.specs.Prelude.{◌≡◌};
ghost use Rattle.study_top.specs.Forms.{form_of};

use job_words::FormName;
use text_forms::Form;

/// The form of this name.
pub(crate) fn form_of(name: FormName) -> Form
    ensures { result ≡ form_of name }
{
    match name {
        FormName::Text => Form::Text,
        FormName::Csv => Form::Csv,
        FormName::Json => Form::Json,
    }
}
