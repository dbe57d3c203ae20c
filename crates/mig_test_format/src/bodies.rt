use mig_headers::Cause;
use mig_records::vcpu_fault;

#[test]
fn knows_faulty_records_of_vcpus(rt: HostRuntime) {
    let body = [0, 16, 0, 0, 0, 0, 0, 0];
    assert_eq!(rt; vcpu_fault(5, &body), Some(Cause::VcpuId(4096)));
    assert_eq!(rt; vcpu_fault(6, &[0; 8]), None);
}
