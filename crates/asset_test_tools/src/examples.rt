//! A script of the folder `examples`.

/// The script `deadlock.asset`.
pub const DEADLOCK: &str = "\
# 7 and 8 wait for each other, and 9 for 7; 10 may not commit before 9 has ended.
object 1 100
object 2 200
initiate 7
initiate 8
initiate 9
initiate 10
begin 7
begin 8
begin 9
begin 10
write 7 1 50
write 8 2 60
# Each of these is answered wait.
read 7 2
read 8 1
write 9 1 70
# 10 depends on 9, so its commit waits too.
depend cd 9 10
complete 10
commit 10
";
