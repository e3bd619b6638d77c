// The calls of laws, which answer nothing.

#[test]
fn the_laws_of_walks_hold() {
    mn_wiring::least_walk();
    mn_wiring::next_hop();
    mn_wiring::square_is_wired();
    mn_wiring::walks_in_the_square();
}

#[test]
fn laws_of_lists_hold_of_each_type() {
    mn_base::first_rule_that_is_broken::<u8>();
    mn_base::changes_keep_the_order::<u16>();
    mn_base::numbers_in_order();
}

#[test]
fn the_laws_of_views_and_trees_hold() {
    mn_linkdb::count_tells_the_last_change();
    mn_linkdb::one_tree();
    mn_linkdb::each_root_has_a_tree();
    mn_linkdb::tree_is_computed();
}

#[test]
fn the_laws_of_ascending_lists_hold() {
    mn_targets::ascending_is_distinct();
    mn_targets::one_list_of_a_set();
}
