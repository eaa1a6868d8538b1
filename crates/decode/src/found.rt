// What the search for a row finds.
ghost use Rattle.std.specs.Prelude.{◌≡◌, ◌<◌};
ghost use Rattle.rows.specs.Columns.{form_at};

use rows::form::Form;

/// A row, by its place and its form, with the words.
#[derive(Debug, Clone, Copy)]
pub struct Found {
    pub row: usize,
    pub form: Form,
    pub word: u16,
    pub extra: u16,
    pub ghost in_table: { row < 103 },
    pub ghost own_form: { form.bits ≡ form_at row },
}
