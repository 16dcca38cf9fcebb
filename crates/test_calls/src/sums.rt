// Runs for the sums of document 02's K3, as a table like that of document 01's runs, drawn by hand.
use crate::table::read_table;

// Answers how many cells the table has, as read_table does.
pub fn read_runs(cells: &mut [u16]) -> Option<usize> {
    read_table(
        "
# sums of one task, alone and among its other accesses
1 0 CLEAN 0 0 0: 0 sum 1023
6 0 CLEAN 0 0 0: 0 sum 5, 0 read 5, 0 sum 5, 0 write 5, 0 sum 5, 0 sum 5
# unordered sums: of a child and its parent, of two children, of all three
4 0 CLEAN 0 0 0: 0 fork 1, 1 sum 5, 1 halt 0, 0 sum 5
5 0 CLEAN 0 0 0: 0 fork 1, 1 sum 5, 1 halt 0, 0 fork 2, 2 sum 5
8 0 CLEAN 0 0 0: 0 sum 5, 0 fork 1, 1 sum 5, 1 halt 0, 0 fork 2, 2 sum 5, 2 halt 0, 0 sum 5
# a sum unordered with a later read, and with a later write
4 4 RACE 1 3 0: 0 fork 1, 1 sum 5, 1 halt 0, 0 read 5; 0 1 3 2; 0 3 1 2
4 4 RACE 1 3 0: 0 fork 1, 1 sum 5, 1 halt 0, 0 write 5; 0 1 3 2; 0 3 1 2
# the other way round
4 4 RACE 1 3 0: 0 fork 1, 1 read 5, 1 halt 0, 0 sum 5; 0 1 3 2; 0 3 1 2
4 4 RACE 1 3 0: 0 fork 1, 1 write 5, 1 halt 0, 0 sum 5; 0 1 3 2; 0 3 1 2
# of another location
4 0 CLEAN 0 0 0: 0 fork 1, 1 sum 5, 1 halt 0, 0 read 6
# unordered sums, joined and then read, and written
9 0 CLEAN 0 0 1: 0 fork 1, 1 sum 5, 1 halt 0, 0 fork 2, 2 sum 5, 2 halt 0, 0 join 2, 0 join 1, 0 read 5
9 0 CLEAN 0 0 1: 0 fork 1, 1 sum 5, 1 halt 0, 0 fork 2, 2 sum 5, 2 halt 0, 0 join 2, 0 join 1, 0 write 5
# a counter: set, added to by a child and its parent, joined and read
7 0 CLEAN 0 0 1: 0 write 5, 0 fork 1, 1 sum 5, 1 halt 0, 0 sum 5, 0 join 1, 0 read 5
# the earlier of two unordered sums is not joined, the later one is, or is of the task itself
8 8 RACE 1 7 1: 0 fork 1, 1 sum 5, 1 halt 0, 0 fork 2, 2 sum 5, 2 halt 0, 0 join 2, 0 read 5; 0 3 4 5 6 1 7 2; 0 3 4 5 6 7 1 2
5 5 RACE 1 4 0: 0 fork 1, 1 sum 5, 1 halt 0, 0 sum 5, 0 read 5; 0 3 1 4 2; 0 3 4 1 2
5 5 RACE 1 4 0: 0 fork 1, 1 sum 5, 1 halt 0, 0 sum 5, 0 write 5; 0 3 1 4 2; 0 3 4 1 2
# the earlier sum is of the task itself
5 5 RACE 2 4 0: 0 sum 5, 0 fork 1, 1 sum 5, 1 halt 0, 0 read 5; 0 1 2 4 3; 0 1 4 2 3
# an earlier sum is no partner of a sum: the read or the write behind it is
5 5 RACE 2 4 0: 0 fork 1, 1 sum 5, 1 read 5, 1 halt 0, 0 sum 5; 0 1 2 4 3; 0 1 4 2 3
5 5 RACE 2 4 0: 0 fork 1, 1 sum 5, 1 write 5, 1 halt 0, 0 sum 5; 0 1 2 4 3; 0 1 4 2 3
# a read and a write stay known behind a sum of their task
5 5 RACE 1 4 0: 0 fork 1, 1 read 5, 1 sum 5, 1 halt 0, 0 sum 5; 0 1 4 2 3; 0 4 1 2 3
5 5 RACE 1 4 0: 0 fork 1, 1 write 5, 1 sum 5, 1 halt 0, 0 sum 5; 0 1 4 2 3; 0 4 1 2 3
# a task joins one that it did not fork, and reads; the task that forked it does, and with '0 join 2' before that
7 0 CLEAN 0 0 1: 0 fork 1, 1 sum 7, 1 halt 0, 0 sum 7, 0 fork 2, 2 join 1, 2 read 7
8 8 RACE 1 7 1: 0 fork 1, 1 sum 7, 1 halt 0, 0 sum 7, 0 fork 2, 2 join 1, 2 halt 0, 0 read 7; 0 3 4 1 7 2 5 6; 0 3 4 7 1 2 5 6
9 0 CLEAN 0 0 1: 0 fork 1, 1 sum 7, 1 halt 0, 0 sum 7, 0 fork 2, 2 join 1, 2 halt 0, 0 join 2, 0 read 7
# '0 halt', then kind 5
2 0 REFUSED 6 1 0: 0 halt 0, 0 5 0
# row 8, and rows 6 and 7 before it
1 0 REFUSED 8 0 0: 0 sum 1024
1 0 REFUSED 8 0 0: 0 sum 65535
2 0 REFUSED 6 1 0: 0 halt 0, 0 sum 1024
1 0 REFUSED 7 0 0: 1 sum 1024
# a sum of a task that was never forked, that is paused, that has halted
1 0 REFUSED 7 0 0: 1 sum 5
2 0 REFUSED 7 1 0: 0 fork 1, 0 sum 5
3 0 REFUSED 7 2 0: 0 fork 1, 1 halt 0, 1 sum 5
# rows 5, 7 and 8 right behind an access that keeps the rules
2 0 REFUSED 5 1 0: 0 sum 5, 0 6 5
2 0 REFUSED 7 1 0: 0 sum 5, 1 sum 5
2 0 REFUSED 8 1 0: 0 sum 5, 0 sum 1024
2 0 REFUSED 8 1 0: 0 read 5, 0 sum 1024
2 0 REFUSED 8 1 0: 0 sum 5, 0 write 1024
# an event behind a race is not looked at
5 4 RACE 1 3 0: 0 fork 1, 1 sum 5, 1 halt 0, 0 read 5, 0 sum 1024; 0 1 3 2; 0 3 1 2
",
        cells,
    )
}
