//! Laws of trees. Calling a law does nothing: its contract is the statement.
ghost use Rattle.std.specs.Prelude.{◌≡◌, ◌↔◌, Bool, true};
ghost use Rattle.cfg_options.specs.Conditions.{Options};
ghost use Rattle.cfg_options.specs.Strings.{string_text};
ghost use Rattle.expander_model.specs.EqualTrees.{same_forest};
ghost use Rattle.expander_model.specs.WholeItems.{is_configured_out};
ghost use Rattle.tt_data.specs.Forest.{Forest, map_spans};
ghost use Rattle.tt_data.specs.declared.span.Span.{Span};

/// The trees of two pieces are equal by `==` exactly if they are the same, spans included.
pub fn equal_pieces()
    ensures { (f g : Forest) → (same_forest f g ≡ true) ↔ (f ≡ g) }
{
    tt::laws::equal_trees();
}

/// Where a piece stands plays no part in what conditional compilation leaves out.
pub fn conditions_look_at_no_place()
    ensures { (options : Options) (f : Span → Span) (items : Bool) (piece : Forest)
        → is_configured_out options string_text items (map_spans f piece)
        ≡ is_configured_out options string_text items piece }
{}
