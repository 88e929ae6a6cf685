// An ordered list: what does not fit and what is not there is refused by 13, and nothing is altered.
use crate::stands::number;
use spool::list::OrderedList;

// Over an empty list in a memory for four.
fn filled(list: &mut OrderedList, memory: &mut [u8]) -> [Result<(), u8>; 8] {
    [
        number(list.get(memory, 0)),
        number(list.remove(memory, 0)),
        number(list.extend(memory, &[5, 5, 5, 5, 5])),
        number(list.extend(memory, &[1, 2, 3])),
        number(list.append(memory, 4)),
        number(list.append(memory, 5)),
        number(list.remove(memory, 4)),
        number(list.remove_run(memory, 2, 3)),
    ]
}

#[test]
fn full_and_absent(rt: HostRuntime) {
    let mut memory = [0; 4];
    let mut list = OrderedList::new();
    let expected = [
        Err(13),
        Err(13),
        Err(13),
        Ok(()),
        Ok(()),
        Err(13),
        Err(13),
        Err(13),
    ];
    assert_eq!(rt; filled(&mut list, &mut memory), expected);
    assert!(rt; list.len(&memory) == 4 && memory == [1, 2, 3, 4]);
    let _ = list.remove(&mut memory, 1);
    assert_eq!(rt; number(list.get(&memory, 3)), Err(13));
    assert!(rt; list.len(&memory) == 3 && memory[..3] == [1, 3, 4]);
}
