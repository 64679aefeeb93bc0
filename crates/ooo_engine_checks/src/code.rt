use ooo_code::law;

#[test]
fn laws_hold() {
    law::reads_what_is_touched();
    law::changes_what_is_touched();
    law::enough_nodes();
}
