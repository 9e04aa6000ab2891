// Laws: there is nothing to run.

ghost use Rattle.std.specs.Prelude.{ℕ, ◌-◌, ◌≤◌, ◌≡◌, ◌≤ℤ◌, Some, length, slice_get, slice_index_or};
ghost use Rattle.std.specs.List.{Contains};
ghost use Rattle.farkas_cert.specs.declared.certificate.Certificate.{Certificate};
ghost use Rattle.farkas_cert.specs.Good.{IsGood};
ghost use Rattle.nest_tree.specs.declared.tree.Access.{Access};
ghost use Rattle.nest_tree.specs.Form.{form_value};
ghost use Rattle.nest_tree.specs.Layout.{bounds_of};
ghost use Rattle.nest_tree.specs.Tree.{Tree, param_values};
ghost use Rattle.nest_tree.specs.WellFormed.{IsWellFormed};
ghost use Rattle.nest_model.specs.Instances.{Instance, instances};
ghost use Rattle.nest_model.specs.Ranges.{accesses_of};
ghost use Rattle.nest_rows.specs.Nested.{Nested, nested_works};
ghost use Rattle.range_check.specs.RangeSystems.{above, below, bounds_in, no_form};
ghost use Rattle.range_check.specs.Sites.{site_of};

/// Where the certificate of a side is good, no instance of the access has a subscript past that
/// bound of the dimension.
pub fn certified_subscripts_are_in_range()
    ensures low { (tree : Tree) (i : Instance) (n : Nested) (a : Access) (dimension : ℕ)
        (c : Certificate) → IsWellFormed tree → Contains (instances tree) i
        → slice_get (nested_works tree) (i.statement - 1) ≡ Some n → Contains (accesses_of i.what) a
        → 1 ≤ dimension → dimension ≤ length (bounds_of tree a.variable)
        → IsGood (below tree (site_of n a) dimension) c
        → (bounds_in tree (site_of n a) dimension).0 ≤ℤ form_value
        (slice_index_or a.subscripts (dimension - 1) no_form) i.loops (param_values tree) }
    ensures high { (tree : Tree) (i : Instance) (n : Nested) (a : Access) (dimension : ℕ)
        (c : Certificate) → IsWellFormed tree → Contains (instances tree) i
        → slice_get (nested_works tree) (i.statement - 1) ≡ Some n → Contains (accesses_of i.what) a
        → 1 ≤ dimension → dimension ≤ length (bounds_of tree a.variable)
        → IsGood (above tree (site_of n a) dimension) c
        → form_value (slice_index_or a.subscripts (dimension - 1) no_form) i.loops
        (param_values tree) ≤ℤ (bounds_in tree (site_of n a) dimension).1 }
{}
