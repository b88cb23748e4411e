// Rows of change_list: what a list of letters says between its changes.
use change_list::ChangeList;
use std::test::Fail;

#[test]
fn values_between_changes(rt: HostRuntime) -> Result<(), Fail> {
    let mut letters = ChangeList::new(rt.alloc());
    assert!(rt; letters.last_value(b'-') == b'-');
    letters.push(3, b'a')?;
    letters.push(7, b'b')?;
    assert!(rt;
        letters.last_value(b'-') == b'b'
            && letters.value_before(b'-', 3) == b'-'
            && letters.value_before(b'-', 4) == b'a'
            && letters.value_before(b'-', 8) == b'b'
            && letters.first_from(4).map(|change| change.value) == Some(b'b')
    );
    Ok(())
}
