//! Shapes by their names.

ghost use Rattle.std.specs.Prelude.{◌≡◌, [], ℕ, List, Some, if◌then◌else◌, string_bytes, option_map, IfOk, IfErr};
ghost use Rattle.std.specs.Str.{bytes_eq};
ghost use Rattle.someip_payload_values.specs.View.{form};
ghost use Rattle.someip_payload.specs.Named.{form_named};

use someip_payload_codec::Shape;
use std::alloc::{AllocError, Global};
use std::collections::BTreeMap;
use std::marker::Model;

/// Shapes by their names, to which the text of a shape may refer. Whether a name is one that a text can
/// refer to is not asked.
#[derive(Drop)]
pub struct NamedShapes {
    shapes: BTreeMap<String, Shape>,
}

impl Model for NamedShapes {
    ghost use Rattle.someip_payload.specs.Named.{NamedForms};
    ghost use Rattle.someip_payload.specs.FormCodes.{coded_named_forms};
    ghost use Rattle.someip_payload.specs.NamedView.{named_view};

    ghost Value = { NamedForms };

    ghost coded = { coded_named_forms };

    ghost view = { λ n. named_view n.shapes.entries };
}

impl NamedShapes {
    /// No shape has a name.
    pub fn new(alloc: Global) -> NamedShapes
        ensures { result ≡ [] }
    {
        NamedShapes {
            shapes: BTreeMap::new(alloc),
        }
    }

    /// Gives a shape a name, in place of the shape that had it.
    pub fn insert(&mut self, name: String, shape: Shape) -> Result<(), AllocError>
        ensures put { IfOk result (λ _. (n : List ℕ) → form_named self.new n
            ≡ (if bytes_eq (string_bytes name) n then Some (form shape) else form_named self.old n)) }
        ensures stays { IfErr result (λ _. self.new ≡ self.old) }
    {
        self.shapes.insert(name, shape)?;
        Ok(())
    }

    /// The shape of this name.
    pub fn get(&self, name: &str) -> Option<&Shape>
        ensures { option_map (λ shape. form shape.now) result ≡ form_named self.now name.now }
    {
        self.shapes.get(name)
    }
}
