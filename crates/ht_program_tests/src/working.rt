use crate::runs::{Office, reply, run_office};
use ht_program::Status;
use ht_samples::{MODELS, PEOPLE};
use std::alloc::Global;
use std::test::Fail;

// Beside the samples a model whose sub tasks are made by hand, and two whose priorities are beyond the
// ends. Each of these finds anna where its priority is at the end.
const MORE: &str = "\
[[model]]
name = \"byHand\"
potentialOwners = \"user('anna')\"
sub = [{name = \"x\", model = \"unit\"}, {name = \"y\", model = \"solo\"}]
[[model]]
name = \"last\"
priority = \"20\"
potentialOwners = \"when(priority == 10, user('anna'), nobody)\"
[[model]]
name = \"first\"
priority = \"-1\"
potentialOwners = \"when(priority == 0, user('anna'), nobody)\"
";

// An empty line begins an office anew. In each line who sends a request, its method, its path and its
// body, if it has one, stand before the status line and the text of the reply.
const ROWS: &str = "\
dan POST /tasks {\"model\":\"unit\"} => 201 Created => {\"owner\":null,\"state\":\"Ready\",\
    \"task\":1}
anna POST /tasks/1/claim => 200 OK => {\"owner\":\"anna\",\"state\":\"Reserved\",\"task\":1}
ben POST /tasks/1/claim => 409 Conflict => {\"allowed\":[\"Ready\"],\"fault\":\"State\",\
    \"state\":\"Reserved\"}
root POST /tasks/1/claim => 403 Forbidden => {\"fault\":\"Role\",\"needs\":[\"potentialOwner\"]}
dan POST /tasks/1/claim => 403 Forbidden => {\"fault\":\"Role\",\"needs\":[\"potentialOwner\"]}
dan GET /tasks/1 => 200 OK => {\"administrators\":[\"cora\"],\"byGroup\":true,\"comments\":[],\
    \"created\":1000,\"excludedOwners\":[],\"fault\":null,\"initiator\":\"dan\",\"input\":{},\
    \"lastOwner\":null,\"model\":\"unit\",\"output\":{},\"owner\":\"anna\",\"parent\":null,\
    \"potentialOwners\":[\"anna\",\"ben\"],\"priority\":5,\"stakeholders\":[],\"started\":false,\
    \"state\":\"Reserved\",\"subs\":[],\"task\":1,\"until\":null,\"waits\":null}

dan POST /tasks {\"model\":\"shut\"} => 201 Created => {\"owner\":null,\"state\":\"Created\",\
    \"task\":1}
cora POST /tasks/1/claim => 403 Forbidden => {\"fault\":\"Role\",\"needs\":[\"potentialOwner\"]}
anna GET /tasks/1 => 403 Forbidden => {\"fault\":\"Role\",\"needs\":[\"initiator\",\
    \"stakeholder\",\"potentialOwner\",\"actualOwner\",\"administrator\"]}
cora POST /tasks/1/activate => 422 Unprocessable Entity => {\"fault\":\"NoOwners\"}
dan GET /tasks/1 => 200 OK => {\"administrators\":[\"cora\"],\"byGroup\":false,\"comments\":[],\
    \"created\":1000,\"excludedOwners\":[\"anna\"],\"fault\":null,\"initiator\":\"dan\",\
    \"input\":{},\"lastOwner\":null,\"model\":\"shut\",\"output\":{},\"owner\":null,\
    \"parent\":null,\"potentialOwners\":[],\"priority\":5,\"stakeholders\":[],\"started\":false,\
    \"state\":\"Created\",\"subs\":[],\"task\":1,\"until\":null,\"waits\":null}
cora POST /tasks/1/nominate {\"persons\":[\"anna\"]} => 422 Unprocessable Entity => {\"fault\":\
    \"Excluded\",\"person\":\"anna\"}
dan GET /tasks/1 => 200 OK => {\"administrators\":[\"cora\"],\"byGroup\":false,\"comments\":[],\
    \"created\":1000,\"excludedOwners\":[\"anna\"],\"fault\":null,\"initiator\":\"dan\",\
    \"input\":{},\"lastOwner\":null,\"model\":\"shut\",\"output\":{},\"owner\":null,\
    \"parent\":null,\"potentialOwners\":[],\"priority\":5,\"stakeholders\":[],\"started\":false,\
    \"state\":\"Created\",\"subs\":[],\"task\":1,\"until\":null,\"waits\":null}
cora POST /tasks/1/nominate {\"persons\":[\"ben\"]} => 200 OK => {\"owner\":\"ben\",\
    \"state\":\"Reserved\",\"task\":1}
dan GET /tasks/1 => 200 OK => {\"administrators\":[\"cora\"],\"byGroup\":false,\"comments\":[],\
    \"created\":1000,\"excludedOwners\":[\"anna\"],\"fault\":null,\"initiator\":\"dan\",\
    \"input\":{},\"lastOwner\":null,\"model\":\"shut\",\"output\":{},\"owner\":\"ben\",\
    \"parent\":null,\"potentialOwners\":[\"ben\"],\"priority\":5,\"stakeholders\":[],\
    \"started\":false,\"state\":\"Reserved\",\"subs\":[],\"task\":1,\"until\":null,\"waits\":null}

dan POST /tasks {\"model\":\"solo\"} => 201 Created => {\"owner\":\"anna\",\"state\":\"Reserved\",\
    \"task\":1}
anna POST /tasks/1/delegate {\"person\":\"ben\"} => 422 Unprocessable Entity => {\"fault\":\"NotDe\
    legatee\",\"person\":\"ben\"}
dan GET /tasks/1 => 200 OK => {\"administrators\":[],\"byGroup\":false,\"comments\":[],\
    \"created\":1000,\"excludedOwners\":[],\"fault\":null,\"initiator\":\"dan\",\"input\":{},\
    \"lastOwner\":null,\"model\":\"solo\",\"output\":{},\"owner\":\"anna\",\"parent\":null,\
    \"potentialOwners\":[\"anna\"],\"priority\":5,\"stakeholders\":[],\"started\":false,\
    \"state\":\"Reserved\",\"subs\":[],\"task\":1,\"until\":null,\"waits\":null}

dan POST /tasks {\"model\":\"unit\"} => 201 Created => {\"owner\":null,\"state\":\"Ready\",\
    \"task\":1}
anna POST /tasks/1/claim => 200 OK => {\"owner\":\"anna\",\"state\":\"Reserved\",\"task\":1}
anna POST /tasks/1/delegate {\"person\":\"cora\"} => 200 OK => {\"owner\":\"cora\",\
    \"state\":\"Reserved\",\"task\":1}
dan GET /tasks/1 => 200 OK => {\"administrators\":[\"cora\"],\"byGroup\":true,\"comments\":[],\
    \"created\":1000,\"excludedOwners\":[],\"fault\":null,\"initiator\":\"dan\",\"input\":{},\
    \"lastOwner\":null,\"model\":\"unit\",\"output\":{},\"owner\":\"cora\",\"parent\":null,\
    \"potentialOwners\":[\"anna\",\"ben\",\"cora\"],\"priority\":5,\"stakeholders\":[],\
    \"started\":false,\"state\":\"Reserved\",\"subs\":[],\"task\":1,\"until\":null,\"waits\":null}

dan POST /tasks {\"model\":\"unit\"} => 201 Created => {\"owner\":null,\"state\":\"Ready\",\
    \"task\":1}
anna POST /tasks/1/claim => 200 OK => {\"owner\":\"anna\",\"state\":\"Reserved\",\"task\":1}
anna POST /tasks/1/forward {\"persons\":[\"cora\"]} => 422 Unprocessable Entity => {\"fault\":\"By\
    Group\"}
dan GET /tasks/1 => 200 OK => {\"administrators\":[\"cora\"],\"byGroup\":true,\"comments\":[],\
    \"created\":1000,\"excludedOwners\":[],\"fault\":null,\"initiator\":\"dan\",\"input\":{},\
    \"lastOwner\":null,\"model\":\"unit\",\"output\":{},\"owner\":\"anna\",\"parent\":null,\
    \"potentialOwners\":[\"anna\",\"ben\"],\"priority\":5,\"stakeholders\":[],\"started\":false,\
    \"state\":\"Reserved\",\"subs\":[],\"task\":1,\"until\":null,\"waits\":null}

dan POST /tasks {\"model\":\"pair\"} => 201 Created => {\"owner\":null,\"state\":\"Ready\",\
    \"task\":1}
anna POST /tasks/1/start => 200 OK => {\"owner\":\"anna\",\"state\":\"InProgress\",\"task\":1}
dan GET /tasks/1 => 200 OK => {\"administrators\":[],\"byGroup\":false,\"comments\":[],\
    \"created\":1000,\"excludedOwners\":[],\"fault\":null,\"initiator\":\"dan\",\"input\":{},\
    \"lastOwner\":null,\"model\":\"pair\",\"output\":{},\"owner\":\"anna\",\"parent\":null,\
    \"potentialOwners\":[\"anna\",\"ben\"],\"priority\":5,\"stakeholders\":[],\"started\":true,\
    \"state\":\"InProgress\",\"subs\":[],\"task\":1,\"until\":null,\"waits\":null}
anna POST /tasks/1/forward {\"persons\":[\"cora\"]} => 200 OK => {\"owner\":null,\
    \"state\":\"Ready\",\"task\":1}
dan GET /tasks/1 => 200 OK => {\"administrators\":[],\"byGroup\":false,\"comments\":[],\
    \"created\":1000,\"excludedOwners\":[],\"fault\":null,\"initiator\":\"dan\",\"input\":{},\
    \"lastOwner\":null,\"model\":\"pair\",\"output\":{},\"owner\":null,\"parent\":null,\
    \"potentialOwners\":[\"ben\",\"cora\"],\"priority\":5,\"stakeholders\":[],\"started\":true,\
    \"state\":\"Ready\",\"subs\":[],\"task\":1,\"until\":null,\"waits\":null}

dan POST /tasks {\"model\":\"ballot\"} => 201 Created => {\"owner\":null,\"state\":\"Ready\",\
    \"task\":1}
anna POST /tasks/1/start => 200 OK => {\"owner\":\"anna\",\"state\":\"InProgress\",\"task\":1}
anna POST /tasks/1/complete => 422 Unprocessable Entity => {\"fault\":\"NoOutput\",\
    \"part\":\"vote\"}
anna POST /tasks/1/suspend => 200 OK => {\"owner\":\"anna\",\"state\":\"SuspendedInProgress\",\
    \"task\":1}
anna POST /tasks/1/resume {} => 200 OK => {\"owner\":\"anna\",\"state\":\"InProgress\",\"task\":1}
anna POST /tasks/1/setOutput {\"output\":{}} => 400 Bad Request => {\"fault\":\"Field\",\
    \"field\":\"output\"}
anna POST /tasks/1/setOutput {\"output\":{\"vote\":\"no\"}} => 200 OK => {\"owner\":\"anna\",\
    \"state\":\"InProgress\",\"task\":1}
anna POST /tasks/1/complete {\"output\":{\"vote\":\"yes\"}} => 200 OK => {\"owner\":null,\
    \"state\":\"Completed\",\"task\":1}
root POST /tasks/1/exit => 409 Conflict => {\"allowed\":[\"Created\",\"Ready\",\"Reserved\",\
    \"InProgress\",\"SuspendedReady\",\"SuspendedReserved\",\"SuspendedInProgress\"],\
    \"fault\":\"State\",\"state\":\"Completed\"}
dan POST /tasks/1/addComment {\"text\":\"\\\"done\\\"\"} => 200 OK => {\"owner\":null,\
    \"state\":\"Completed\",\"task\":1}
dan GET /tasks/1 => 200 OK => {\"administrators\":[],\"byGroup\":true,\
    \"comments\":[{\"moment\":10000,\"person\":\"dan\",\"text\":\"\\\"done\\\"\"}],\
    \"created\":1000,\"excludedOwners\":[],\"fault\":null,\"initiator\":\"dan\",\"input\":{},\
    \"lastOwner\":\"anna\",\"model\":\"ballot\",\"output\":{\"vote\":\"yes\"},\"owner\":null,\
    \"parent\":null,\"potentialOwners\":[\"anna\",\"ben\"],\"priority\":5,\"stakeholders\":[],\
    \"started\":true,\"state\":\"Completed\",\"subs\":[],\"task\":1,\"until\":null,\"waits\":null}

dan POST /tasks {\"model\":\"solo\"} => 201 Created => {\"owner\":\"anna\",\
    \"state\":\"Reserved\",\"task\":1}
dan POST /tasks/1/skip => 422 Unprocessable Entity => {\"fault\":\"NotSkipable\"}
anna POST /tasks/1/start => 200 OK => {\"owner\":\"anna\",\"state\":\"InProgress\",\"task\":1}
anna POST /tasks/1/fail {\"fault\":\"torn\"} => 200 OK => {\"owner\":null,\"state\":\"Failed\",\
    \"task\":1}
root POST /tasks/1/error => 409 Conflict => {\"allowed\":[\"Created\",\"Ready\",\"Reserved\",\
    \"InProgress\",\"SuspendedReady\",\"SuspendedReserved\",\"SuspendedInProgress\"],\
    \"fault\":\"State\",\"state\":\"Failed\"}
anna GET /tasks/1 => 200 OK => {\"administrators\":[],\"byGroup\":false,\"comments\":[],\
    \"created\":1000,\"excludedOwners\":[],\"fault\":\"torn\",\"initiator\":\"dan\",\"input\":{},\
    \"lastOwner\":\"anna\",\"model\":\"solo\",\"output\":{},\"owner\":null,\"parent\":null,\
    \"potentialOwners\":[\"anna\"],\"priority\":5,\"stakeholders\":[],\"started\":true,\
    \"state\":\"Failed\",\"subs\":[],\"task\":1,\"until\":null,\"waits\":null}

dan POST /tasks {\"model\":\"unit\"} => 201 Created => {\"owner\":null,\"state\":\"Ready\",\
    \"task\":1}
dan POST /tasks {\"model\":\"unit\"} => 201 Created => {\"owner\":null,\"state\":\"Ready\",\
    \"task\":2}
anna POST /tasks/1/claim {\"device\":1,\"number\":5} => 200 OK => {\"owner\":\"anna\",\
    \"state\":\"Reserved\",\"task\":1}
anna POST /tasks/1/claim {\"device\":1,\"number\":5} => 200 OK => {\"owner\":\"anna\",\
    \"state\":\"Reserved\",\"task\":1}
anna POST /tasks/1/claim {\"device\":1,\"number\":4} => 409 Conflict => {\"fault\":\
    \"NumberStale\",\"last\":5}
anna POST /tasks/2/claim {\"device\":1,\"number\":5} => 409 Conflict => {\"fault\":\
    \"NumberReused\",\"last\":5}
dan GET /tasks/2 => 200 OK => {\"administrators\":[\"cora\"],\"byGroup\":true,\"comments\":[],\
    \"created\":2000,\"excludedOwners\":[],\"fault\":null,\"initiator\":\"dan\",\"input\":{},\
    \"lastOwner\":null,\"model\":\"unit\",\"output\":{},\"owner\":null,\"parent\":null,\
    \"potentialOwners\":[\"anna\",\"ben\"],\"priority\":5,\"stakeholders\":[],\
    \"started\":false,\"state\":\"Ready\",\"subs\":[],\"task\":2,\"until\":null,\
    \"waits\":null}

dan POST /tasks {\"model\":\"last\"} => 201 Created => {\"owner\":\"anna\",\
    \"state\":\"Reserved\",\"task\":1}
dan POST /tasks {\"model\":\"first\"} => 201 Created => {\"owner\":\"anna\",\
    \"state\":\"Reserved\",\"task\":2}

dan PUT /tasks => 405 Method Not Allowed => {\"fault\":\"Method\"}
dan GET /nowhere => 404 Not Found => {\"fault\":\"Route\"}
dan POST /tasks [] => 400 Bad Request => {\"fault\":\"Field\",\"field\":\"body\"}
dan POST /tasks { => 400 Bad Request => {\"fault\":\"Json\"}
- POST /tasks => 401 Unauthorized => {\"fault\":\"Person\"}
dan GET /tasks/9 => 404 Not Found => {\"fault\":\"Task\",\"task\":9}";

// Offices with composite tasks.
const FAMILIES: &str = "\
dan POST /tasks {\"model\":\"both\"} => 201 Created => {\"owner\":\"anna\",\"state\":\"Reserved\",\
    \"task\":1}
anna POST /tasks/1/start => 200 OK => {\"owner\":\"anna\",\"state\":\"InProgress\",\"task\":1}
anna POST /tasks/2/addComment {\"text\":\"new\"} => 200 OK => {\"owner\":null,\
    \"state\":\"Ready\",\"task\":2}
anna POST /tasks/3/addComment {\"text\":\"new\"} => 200 OK => {\"owner\":null,\
    \"state\":\"Ready\",\"task\":3}
anna POST /tasks/2/start => 200 OK => {\"owner\":\"anna\",\"state\":\"InProgress\",\"task\":2}
anna POST /tasks/2/complete => 200 OK => {\"owner\":null,\"state\":\"Completed\",\"task\":2}
anna POST /tasks/1/suspend => 200 OK => {\"owner\":\"anna\",\"state\":\"SuspendedInProgress\",\
    \"task\":1}
anna POST /tasks/2/addComment {\"text\":\"well\"} => 200 OK => {\"owner\":null,\
    \"state\":\"Completed\",\"task\":2}
anna GET /tasks/3 => 200 OK => {\"administrators\":[\"cora\"],\"byGroup\":true,\
    \"comments\":[{\"moment\":4000,\"person\":\"anna\",\"text\":\"new\"}],\"created\":2000,\
    \"excludedOwners\":[],\"fault\":null,\"initiator\":\"anna\",\"input\":{},\"lastOwner\":null,\"model\":\"unit\",\"output\":{},\"owner\":null,\"parent\":1,\
    \"potentialOwners\":[\"anna\",\"ben\"],\"priority\":5,\"stakeholders\":[],\"started\":false,\
    \"state\":\"SuspendedReady\",\"subs\":[],\"task\":3,\"until\":null,\"waits\":null}
anna POST /tasks/1/resume => 200 OK => {\"owner\":\"anna\",\"state\":\"InProgress\",\"task\":1}
anna POST /tasks/2/addComment {\"text\":\"done\"} => 200 OK => {\"owner\":null,\
    \"state\":\"Completed\",\"task\":2}
anna POST /tasks/3/claim => 200 OK => {\"owner\":\"anna\",\"state\":\"Reserved\",\"task\":3}
anna GET /tasks/1 => 200 OK => {\"administrators\":[],\"byGroup\":false,\"comments\":[],\
    \"created\":1000,\"excludedOwners\":[],\"fault\":null,\"initiator\":\"dan\",\"input\":{},\
    \"lastOwner\":null,\"model\":\"both\",\"output\":{},\"owner\":\"anna\",\"parent\":null,\
    \"potentialOwners\":[\"anna\"],\"priority\":5,\"stakeholders\":[],\"started\":true,\
    \"state\":\"InProgress\",\"subs\":[2,3],\"task\":1,\"until\":null,\"waits\":null}

dan POST /tasks {\"model\":\"seq\"} => 201 Created => {\"owner\":\"anna\",\"state\":\"Reserved\",\
    \"task\":1}
anna POST /tasks/1/start => 200 OK => {\"owner\":\"anna\",\"state\":\"InProgress\",\"task\":1}
anna GET /tasks/3 => 404 Not Found => {\"fault\":\"Task\",\"task\":3}
anna POST /tasks/2/addComment {\"text\":\"ready\"} => 200 OK => {\"owner\":null,\
    \"state\":\"Ready\",\"task\":2}
anna POST /tasks/2/skip => 200 OK => {\"owner\":null,\"state\":\"Obsolete\",\"task\":2}
anna POST /tasks/3/addComment {\"text\":\"mine\"} => 200 OK => {\"owner\":\"anna\",\
    \"state\":\"Reserved\",\"task\":3}
anna POST /tasks/3/start => 200 OK => {\"owner\":\"anna\",\"state\":\"InProgress\",\"task\":3}
anna POST /tasks/3/fail {\"fault\":\"lost\"} => 200 OK => {\"owner\":null,\"state\":\"Failed\",\
    \"task\":3}
dan GET /tasks/1 => 200 OK => {\"administrators\":[],\"byGroup\":false,\"comments\":[],\
    \"created\":1000,\"excludedOwners\":[],\"fault\":\"lost\",\"initiator\":\"dan\",\"input\":{},\
    \"lastOwner\":\"anna\",\"model\":\"seq\",\"output\":{},\"owner\":null,\"parent\":null,\
    \"potentialOwners\":[\"anna\"],\"priority\":5,\"stakeholders\":[],\"started\":true,\
    \"state\":\"Failed\",\"subs\":[2,3],\"task\":1,\"until\":null,\"waits\":null}

dan POST /tasks {\"model\":\"vote\"} => 201 Created => {\"owner\":\"anna\",\"state\":\"Reserved\",\
    \"task\":1}
anna POST /tasks/1/start => 200 OK => {\"owner\":\"anna\",\"state\":\"InProgress\",\"task\":1}
anna POST /tasks/2/start => 200 OK => {\"owner\":\"anna\",\"state\":\"InProgress\",\"task\":2}
anna POST /tasks/2/complete => 422 Unprocessable Entity => {\"fault\":\"NoOutput\",\
    \"part\":\"vote\"}
anna POST /tasks/2/complete {\"output\":{\"vote\":\"yes\"}} => 200 OK => {\"owner\":null,\
    \"state\":\"Completed\",\"task\":2}
anna POST /tasks/1/setPriority {\"priority\":5} => 200 OK => {\"owner\":\"anna\",\
    \"state\":\"InProgress\",\"task\":1}
ben POST /tasks/3/start => 200 OK => {\"owner\":\"ben\",\"state\":\"InProgress\",\"task\":3}
ben POST /tasks/3/complete {\"output\":{\"vote\":\"yes\"}} => 200 OK => {\"owner\":null,\
    \"state\":\"Completed\",\"task\":3}
dan GET /tasks/1 => 200 OK => {\"administrators\":[],\"byGroup\":false,\"comments\":[],\
    \"created\":1000,\"excludedOwners\":[],\"fault\":null,\"initiator\":\"dan\",\"input\":{},\
    \"lastOwner\":\"anna\",\"model\":\"vote\",\"output\":{\"decision\":\"yes\"},\"owner\":null,\
    \"parent\":null,\"potentialOwners\":[\"anna\"],\"priority\":5,\"stakeholders\":[],\
    \"started\":true,\"state\":\"Completed\",\"subs\":[2,3,4],\"task\":1,\"until\":null,\
    \"waits\":null}
anna POST /tasks/4/addComment {\"text\":\"no need\"} => 200 OK => {\"owner\":null,\
    \"state\":\"Obsolete\",\"task\":4}

dan POST /tasks {\"model\":\"byHand\"} => 201 Created => {\"owner\":\"anna\",\
    \"state\":\"Reserved\",\"task\":1}
anna POST /tasks/1/start => 200 OK => {\"owner\":\"anna\",\"state\":\"InProgress\",\"task\":1}
anna POST /tasks/1/instantiateSubTask {\"sub\":\"y\"} => 422 Unprocessable Entity => {\"fault\":\
    \"SubRefused\",\"sub\":\"y\"}
anna POST /tasks/1/instantiateSubTask {\"sub\":\"x\",\"device\":1,\"number\":1} => 201 Created => \
    {\"owner\":null,\"state\":\"Ready\",\"task\":2}
anna POST /tasks/1/instantiateSubTask {\"sub\":\"x\",\"device\":1,\"number\":1} => 201 Created => \
    {\"owner\":null,\"state\":\"Ready\",\"task\":2}
anna POST /tasks/1/instantiateSubTask {\"sub\":\"x\"} => 422 Unprocessable Entity => {\"fault\":\
    \"SubRefused\",\"sub\":\"x\"}";

// The bytes of a request: who sends it, or `-` for nobody, its method, its path, and its body behind a
// blank.
fn request(alloc: Global, line: &str) -> Result<String, Fail> {
    let (who, rest) = line.split_once(" ").ok_or("a person")?;
    let (method, rest) = rest.split_once(" ").ok_or("a method")?;
    let (path, body) = rest.split_once(" ").unwrap_or((rest, ""));
    let length = body.len();
    let field = if who == "-" { "x-nobody" } else { "x-person" };
    let head = format!(in alloc; "{method} {path} HTTP/1.1\r\n{field}: {who}\r\n")?;
    Ok(format!(in alloc; "{head}content-length: {length}\r\n\r\n{body}")?)
}

// Whether the office of these models and of the people of the samples answers so.
fn is_answered_so(alloc: Global, models: &str, row: &str) -> Result<bool, Fail> {
    let mut input = String::new(alloc);
    let mut want = String::new(alloc);
    for line in row.lines() {
        let (asked, told) = line.split_once(" => ").ok_or("a request and a reply")?;
        let (status, text) = told.split_once(" => ").ok_or("a status and a text")?;
        input.push_str(request(alloc, asked)?.as_str())?;
        want.push_str(reply(alloc, status, text, false)?.as_str())?;
    }
    let office = Office {
        texts: &[("m", models), ("p", PEOPLE)],
        failing: &[],
    };
    let line = "run --from 1000 --step 1000 --models m --people p";

    let ran = run_office(alloc, line, &office, input.as_str(), &[], &[])?;
    Ok(ran.status == Status(0) && ran.output.written() == want.as_bytes())
}

#[test]
fn tasks_are_worked_on(rt: HostRuntime) -> Result<(), Fail> {
    let models = format!(in rt.alloc(); "{MODELS}{MORE}")?;
    for rows in [ROWS, FAMILIES] {
        for row in rows.split("\n\n") {
            assert!(rt; is_answered_so(rt.alloc(), models.as_str(), row)?, "{row}");
        }
    }
    Ok(())
}
